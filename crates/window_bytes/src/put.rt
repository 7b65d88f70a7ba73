// A window put into a state's bytes.
ghost use Rattle.std.specs.Prelude.{◌≡◌, ◌++◌, map, ◌-◌, ◌*◌, ◌≤◌, length, replicate};
ghost use Rattle.value_bytes.specs.Bytes.{end_to_end};
ghost use Rattle.window_rules.specs.WindowBytes.{int_bytes, window_bytes};
ghost use Rattle.window.specs.WindowCalls.{window_of};

use crate::{INT, INTS, STATE};
use window::Window;

fn int_bytes(i: i32) -> [u8; INT]
    ensures { result ≡ int_bytes i }
{
    i.to_le_bytes()
}

// Those in use, and zeros behind them.
fn ints_bytes(ints: &[i32]) -> [u8; 64]
    requires { length ints.now ≤ 16 }
    ensures { result ≡ end_to_end (map int_bytes ints.now) ++ replicate (64 - 4 * length ints.now) 0 }
{
    let mut out = [0; 64];
    for (i, n) in ints.iter().enumerate() {
        out[i * INT..i * INT + INT].copy_from_slice(&int_bytes(*n));
    }
    out
}

pub fn put_window(out: &mut [u8; STATE], window: Window)
    requires { window.count ≤ 16 }
    ensures { out.new ≡ window_bytes (window_of window) }
{
    out[..8].copy_from_slice(&window.width.to_le_bytes());
    out[8..16].copy_from_slice(&window.column.to_le_bytes());
    out[16..INTS].copy_from_slice(&window.count.to_le_bytes());
    let ints = window.ints;
    out[INTS..].copy_from_slice(&ints_bytes(&ints[..window.count]));
}

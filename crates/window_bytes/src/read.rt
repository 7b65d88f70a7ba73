// A window read from a state's bytes.
ghost use Rattle.std.specs.Prelude.{◌≡◌, map, ℕ, ◌≤◌, length};
ghost use Rattle.record_bytes.specs.Bytes.{int_in, parts};
ghost use Rattle.window_rules.specs.WindowBytes.{eight_in, rows_in, window_in, is_state};
ghost use Rattle.window.specs.WindowCalls.{ints_of, window_of};

use crate::{INT, INTS, STATE};
use record_bytes::{field, int_in, zeros};
use window::{Window, width_ok};

fn number_in(p: &[u8]) -> usize
    requires { length p.now ≡ 8 }
    ensures { result ≡ eight_in p.now }
{
    usize::from_le_bytes(p.try_into().unwrap())
}

// All sixteen, those that are not in use too.
fn ints_in(p: &[u8]) -> [i32; 16]
    requires { length p.now ≡ 64 }
    ensures { (n : ℕ) → n ≤ 16 → ints_of n result ≡ map int_in (parts 4 n p.now) }
{
    let mut ints = [0; 16];
    for i in 0..16 {
        ints[i] = int_in(field(p, i * INT));
    }
    ints
}

pub fn window_in(p: &[u8; STATE]) -> Window
    ensures { rows_in p.now ≤ 16 → window_of result ≡ window_in p.now }
{
    Window {
        width: number_in(&p[..8]),
        column: number_in(&p[8..16]),
        count: number_in(&p[16..INTS]),
        ints: ints_in(&p[INTS..]),
    }
}

// Not so where the window would be refused, or a byte that is not in use is not zero.
pub fn is_state(p: &[u8; STATE]) -> bool
    ensures { result ≡ is_state p.now }
{
    let width = number_in(&p[..8]);
    if !width_ok(width) {
        return false;
    }
    let count = number_in(&p[16..INTS]);
    count <= width && zeros(&p[INTS + INT * count..])
}

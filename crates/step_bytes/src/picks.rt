// Picks held as bytes, two each.
ghost use Rattle.std.specs.Prelude.{◌≡◌, ◌+◌, ◌*◌, ◌<◌, length, get_or};
ghost use Rattle.nets.specs.View.{no_pick};
ghost use Rattle.step_bytes.specs.PickBytes.{picks_in};

use nets::Pick;

pub fn pick_at(picks: &[u8], i: usize) -> Pick
    requires { i * 2 + 1 < length picks.now }
    ensures { result ≡ get_or (picks_in picks.now) i no_pick }
{
    Pick {
        thread: picks[i * 2],
        row: picks[i * 2 + 1],
    }
}

// The picks of a file as bytes.
pub fn pick_bytes(picks: [Pick; 256]) -> [u8; 512]
    ensures { picks_in result ≡ picks }
{
    let mut bytes = [0u8; 512];
    for i in 0..256 {
        bytes[i * 2] = picks[i].thread;
        bytes[i * 2 + 1] = picks[i].row;
    }
    bytes
}

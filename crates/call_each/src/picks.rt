// The call for a file's own picks.
ghost use Rattle.std.specs.Prelude.{◌≡◌, ◌*◌, ◌≤◌, ◌<◌, length, IfErr};
ghost use Rattle.call_rules.specs.Layouts.{picks_put};
ghost use Rattle.call_rules.specs.Replies.{if_room};
ghost use Rattle.call_rules.specs.Openings.{Told, number_of, number_told, place_told};
ghost use Rattle.call_rules.specs.Calls.{PicksIs};

use call_rules::{Refused, Reply};
use load::load;
use nets::Pick;

// Two bytes for each pick.
fn put_picks(out: &mut [u8], picks: &[Pick])
    requires { (length picks.now ≤ 256) × (length out.old ≡ length picks.now * 2) }
    ensures { out.new ≡ picks_put picks.now }
{
    for (i, pick) in picks.iter().enumerate() {
        out[i * 2..i * 2 + 2].copy_from_slice(&[pick.thread, pick.row]);
    }
}

// Of a file that is accepted.
fn picks_given(picks: &[Pick], out: &mut [u8]) -> Reply
    requires { length picks.now ≤ 256 }
    ensures { Told (if_room (picks_put picks.now) out.old) out.old out.new result }
{
    let size = picks.len() * 2;
    if out.len() < size {
        return Err(Refused::Short(size));
    }
    put_picks(&mut out[0..size], picks);
    Ok(size)
}

pub fn call_picks(file: &[u8], out: &mut [u8]) -> Reply
    ensures told { PicksIs file.now out.old out.new (number_told result) (place_told result) }
    ensures refused { IfErr result (λ why. (0 < number_of why) × (out.new ≡ out.old)) }
{
    let loaded = load(file);
    loaded.verdict?;
    picks_given(&loaded.picks[..loaded.pickcount], out)
}

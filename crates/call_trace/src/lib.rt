// A trace: the moments of a run, as many as a lent buffer has room for.
#![tactic(auto)]

ghost use Rattle.std.specs.Prelude.{◌≡◌, ◌++◌, ◌*◌, ◌≤◌, T, length, drop};
ghost use Rattle.nets.specs.Sound.{sound};
ghost use Rattle.nets.specs.View.{view};
ghost use Rattle.step_bytes.specs.PickBytes.{picks_in};
ghost use Rattle.call_rules.specs.Moments.{moment_put};
ghost use Rattle.call_rules.specs.Traces.{trace_put, traced};
ghost use Rattle.call_rules.specs.Openings.{Told};

use call_moment::{moment_size, put_moment};
use call_rules::{Refused, Reply};
use call_run::run_picks;
use nets::Net;

// The net before all picks, and after each, while there is room: how many bytes they have. The first has room.
fn put_trace(out: &mut [u8], start: Net, picks: &[u8]) -> usize
    requires { T (sound (view start)) × (length (moment_put (view start)) ≤ length out.old) }
    ensures { (result ≡ length (trace_put (view start) (picks_in picks.now) (length out.old))) × (out.new ≡ trace_put (view start) (picks_in picks.now) (length out.old) ++ drop result out.old) }
{
    let mut net = start;
    let mut at = moment_size(net);
    put_moment(&mut out[0..at], net);
    for i in 0..picks.len() / 2 {
        net = run_picks(net, &picks[i * 2..i * 2 + 2]);
        let size = moment_size(net);
        if out.len() - at < size {
            return at;
        }
        put_moment(&mut out[at..at + size], net);
        at += size;
    }
    at
}

// From the net after the first `from` picks on, or after all of them where there are fewer.
pub fn trace_from(net: Net, picks: &[u8], from: usize, out: &mut [u8]) -> Reply
    requires { T (sound (view net)) }
    ensures { Told (traced from (view net) (picks_in picks.now) out.old) out.old out.new result }
{
    let skipped = from.min(picks.len() / 2);
    let first = run_picks(net, &picks[..skipped * 2]);
    let size = moment_size(first);
    if out.len() < size {
        return Err(Refused::Short(size));
    }
    Ok(put_trace(out, first, &picks[skipped * 2..]))
}

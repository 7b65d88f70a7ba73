// All picks carried out, for the calls: the net that they leave, or their answers as bytes. Picks come as bytes, two for each.
#![tactic(auto)]

ghost use Rattle.std.specs.Prelude.{◌≡◌, T, ◌*◌};
ghost use Rattle.nets.specs.Sound.{sound};
ghost use Rattle.nets.specs.Accounts.{after};
ghost use Rattle.nets.specs.View.{view};
ghost use Rattle.step_bytes.specs.PickBytes.{picks_in};
ghost use Rattle.step_bytes.specs.AnswerBytes.{answers_put};
ghost use Rattle.call_rules.specs.Replies.{needed, if_room};
ghost use Rattle.call_rules.specs.Openings.{Told};

use call_rules::{Refused, Reply};
use nets::Net;
use step_bytes::answers::{ANSWER, has_room};
use step_left::left_by;
use step_picks::carry_out;

// The net after all picks. No step makes a sound net unsound, so soundness is not tested.
// It is asked by a clause, not by a type around the net: what is done with a net is done with its parts, and each use would open that type again.
pub fn run_picks(start: Net, picks: &[u8]) -> Net
    requires { T (sound (view start)) }
    ensures { (view result ≡ after (view start) (picks_in picks.now)) × T (sound (view result)) }
{
    let mut unused = [0u8; 0];
    left_by(start, carry_out(start, picks, &mut unused))
}

// The length of so many answers; one past 64 bits is told as the largest number of 64 bits.
fn answers_length(count: usize) -> usize
    ensures { result ≡ needed (count * 24) }
{
    count.saturating_mul(ANSWER)
}

// The answer to each pick. There is one for each, so whether there is room is known before the picks are carried out.
pub fn answers_given(net: Net, picks: &[u8], out: &mut [u8]) -> Reply
    requires { T (sound (view net)) }
    ensures { Told (if_room (answers_put (view net) (picks_in picks.now)) out.old) out.old out.new result }
{
    let count = picks.len() / 2;
    if !has_room(out.len(), count) {
        return Err(Refused::Short(answers_length(count)));
    }
    carry_out(net, picks, out);
    Ok(count * ANSWER)
}

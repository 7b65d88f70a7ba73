// The single step: one pick carried out, or none where the net is not sound.
#![tactic(auto)]

ghost use Rattle.std.specs.Prelude.{◌≡◌, cond, ◌≤◌, T};
ghost use Rattle.nets.specs.Sound.{sound};
ghost use Rattle.nets.specs.Answers.{StepIs};
ghost use Rattle.nets.specs.View.{view};

use net_sound::whole::sound_net;
use nets::{Net, Pick, Stepped};
use step_left::left_by;
use step_picks::carry_out;

// The count where the test passed, else 0: an unsound net gets no picks.
pub fn count_if(sure: bool, count: usize) -> usize
    ensures { (result ≡ cond sure count 0) × (result ≤ count) }
{
    if sure {
        return count;
    }
    0
}

// On a sound net; the net given back is sound again.
pub fn step_sound(net: Net, pick: Pick) -> Stepped
    requires { T (sound (view net)) }
    ensures { StepIs net pick result × T (sound (view result.net)) }
{
    let picks = [pick.thread, pick.row];
    let mut unused = [0u8; 0];
    let g = carry_out(net, &picks, &mut unused);
    let answer = g.answer;
    let next = left_by(net, g);
    Stepped { answer, net: next }
}

// Any net and any pick: the answer and the next net; after a refusal the very net that came in.
pub fn step(net: Net, pick: Pick) -> Stepped
    ensures { StepIs net pick result }
{
    let sure = sound_net(&net);
    let picks = [pick.thread, pick.row];
    let length = count_if(sure, 2);
    let mut unused = [0u8; 0];
    let g = carry_out(net, &picks[..length], &mut unused);
    let answer = g.answer;
    let next = left_by(net, g);
    Stepped { answer, net: next }
}

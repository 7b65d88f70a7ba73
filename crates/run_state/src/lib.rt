// The state of a run: a net, whether it is sound, and the sums of the counts reported so far.
#![tactic(auto)]

ghost use Rattle.std.specs.Prelude.{◌≡◌, ◌<◌, ◌^◌};
ghost use Rattle.nets.specs.Answers.{added_said, taken_said, said_of};
ghost use Rattle.run_state.specs.States.{Begun, Tallied};

use net_sound::whole::sound_net;
use nets::{Answer, Done, Net, Stepped};
use value_totals::{Total, add_count, zero};

#[derive(Clone, Copy)]
pub struct Ran {
    pub net: Net,
    // A plain answer, and no sign of what stands beside it: an unsound net is there too, as it came.
    pub sound: bool,
    pub added: Total,
    pub taken: Total,
}

// Before the first pick. This is the one test of soundness in a run.
pub fn begin(net: Net) -> Ran
    ensures { Begun net result }
{
    Ran {
        net,
        sound: sound_net(&net),
        added: zero(),
        taken: zero(),
    }
}

// What a pick reports; a refused one reports none.
fn reported(answer: Answer) -> Done
    ensures { (result.added ≡ added_said (said_of answer)) × (result.taken ≡ taken_said (said_of answer)) }
{
    match answer {
        Err(_) => Done { added: 0, taken: 0 },
        Ok(done) => done,
    }
}

// The net that a step left, and its counts with those before. The flag stays: a step of a sound net leaves a sound one.
pub fn tally(s: Ran, stepped: Stepped) -> Ran
    requires { (s.added.high < 2 ^ 63) × (s.taken.high < 2 ^ 63) }
    ensures { Tallied s stepped result }
{
    let done = reported(stepped.answer);
    let net = stepped.net;
    Ran {
        net,
        sound: s.sound,
        added: add_count(s.added, done.added),
        taken: add_count(s.taken, done.taken),
    }
}

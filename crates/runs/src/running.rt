// A run: every pick of a lent slice in order, each on the net that the pick before it left. Soundness is tested once, at the start.
ghost use Rattle.std.specs.Prelude.{[], ◌∷◌};
ghost use Rattle.runs.specs.Runs.{RunIs};
ghost use Rattle.runs.specs.Further.{Ready, Further};

use nets::{Net, Pick};
use run_state::{Ran, begin, tally};
use steps::step_sound;

// One pick of a run. An unsound net refuses it, and stands as it is.
fn run_pick(s: Ran, pick: Pick) -> Ran
    requires { Ready s }
    ensures { Further s (pick ∷ []) result }
{
    if s.sound {
        let net = s.net;
        return tally(s, step_sound(net, pick));
    }
    s
}

// Every list of picks, of any length; every net, sound or not.
pub fn run(net: Net, picks: &[Pick]) -> Ran
    ensures { RunIs net picks.now result }
{
    let mut s = begin(net);
    for pick in picks {
        s = run_pick(s, *pick);
    }
    s
}

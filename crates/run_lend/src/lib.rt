// A run over picks held by value, for callers that lend no slice themselves.
#![tactic(auto)]

ghost use Rattle.std.specs.Prelude.{take};
ghost use Rattle.runs.specs.Runs.{RunIs};

use nets::{Net, Pick};
use run_state::Ran;
use runs::running::run;

// The first `count` picks of the array; all of them if it has no more. An array and a count, since callers with a slice have `run` itself.
pub fn run_first(net: Net, picks: [Pick; 256], count: usize) -> Ran
    ensures { RunIs net (take count picks) result }
{
    run(net, &picks[..count.min(256)])
}

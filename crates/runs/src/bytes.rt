// A run over picks held as bytes, two each: the fast form, in which the net is handed on once.
ghost use Rattle.step_bytes.specs.PickBytes.{picks_in};
ghost use Rattle.runs.specs.Runs.{RunIs};

use net_sound::whole::sound_net;
use nets::Net;
use run_state::Ran;
use step_left::left_by;
use step_picks::carry_out;
use steps::count_if;

// Every list of picks, of any length; every net, sound or not. A last byte without a second is no pick.
pub fn run_bytes(net: Net, picks: &[u8]) -> Ran
    ensures { RunIs net (picks_in picks.now) result }
{
    let sound = sound_net(&net);
    let length = count_if(sound, picks.len());
    let mut unused = [0u8; 0];
    let g = carry_out(net, &picks[..length], &mut unused);
    let next = left_by(net, g);
    let added = g.added;
    let taken = g.taken;
    Ran {
        net: next,
        sound,
        added,
        taken,
    }
}

// The call for the threads that all picks leave.
ghost use Rattle.std.specs.Prelude.{◌≡◌, ◌<◌, T, IfErr};
ghost use Rattle.nets.specs.Sound.{sound};
ghost use Rattle.nets.specs.View.{view};
ghost use Rattle.call_rules.specs.Layouts.{threads_put};
ghost use Rattle.step_bytes.specs.PickBytes.{picks_in};
ghost use Rattle.call_rules.specs.Replies.{if_room};
ghost use Rattle.call_rules.specs.Openings.{Told, number_of, number_told, place_told};
ghost use Rattle.call_rules.specs.Calls.{ThreadsIs};

use call_open::open_file;
use call_rules::{Refused, Reply};
use call_run::run_picks;
use call_thread::{THREAD, put_threads};
use nets::Net;

// Of a file and picks that are accepted.
fn threads_left(net: Net, picks: &[u8], out: &mut [u8]) -> Reply
    requires { T (sound (view net)) }
    ensures { Told (if_room (threads_put (view net) (picks_in picks.now)) out.old) out.old out.new result }
{
    let left = run_picks(net, picks);
    let all_threads = left.threads;
    let threads = &all_threads[..left.threadcount];
    let size = threads.len() * THREAD;
    if out.len() < size {
        return Err(Refused::Short(size));
    }
    put_threads(&mut out[0..size], threads);
    Ok(size)
}

pub fn call_threads(file: &[u8], picks: &[u8], out: &mut [u8]) -> Reply
    ensures told { ThreadsIs file.now picks.now out.old out.new (number_told result) (place_told result) }
    ensures refused { IfErr result (λ why. (0 < number_of why) × (out.new ≡ out.old)) }
{
    let net = open_file(file, picks)?;
    threads_left(net, picks, out)
}

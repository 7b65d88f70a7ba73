// All threads as records, one after the other.
ghost use Rattle.std.specs.Prelude.{◌≡◌, ◌*◌, ◌≤◌, T, length};
ghost use Rattle.nets.specs.Sound.{sound};
ghost use Rattle.nets.specs.View.{view};
ghost use Rattle.value_bytes.specs.Bytes.{end_to_end};
ghost use Rattle.call_rules.specs.Moments.{all_threads};

use call_hold::loops::all_holds;
use call_hold::threads::{count_records, put_records};
use nets::Net;
use record_bytes::RECORD;

// How many records all threads have. What is saved for a thread is read here, where the net is: handed on whole it would be copied for each thread.
pub fn count_all(net: Net) -> usize
    requires { T (sound (view net)) }
    ensures { (result ≡ length (all_threads (view net).nodes (view net).threads)) × (result ≤ 3672) }
{
    let nodes = net.nodes;
    let holds = all_holds(&nodes[..net.nodecount]);
    let mut total = 0;
    for i in 0..net.threadcount {
        let k = i * 8;
        let saved = [
            net.saved[k],
            net.saved[k + 1],
            net.saved[k + 2],
            net.saved[k + 3],
            net.saved[k + 4],
            net.saved[k + 5],
            net.saved[k + 6],
            net.saved[k + 7],
        ];
        total += count_records(net.threads[i], saved, holds);
    }
    total
}

pub fn put_all(out: &mut [u8], net: Net)
    requires { T (sound (view net)) × (length out.old ≡ length (all_threads (view net).nodes (view net).threads) * 104) }
    ensures { out.new ≡ end_to_end (all_threads (view net).nodes (view net).threads) }
{
    let nodes = net.nodes;
    let holds = all_holds(&nodes[..net.nodecount]);
    let mut at = 0;
    for i in 0..net.threadcount {
        let k = i * 8;
        let saved = [
            net.saved[k],
            net.saved[k + 1],
            net.saved[k + 2],
            net.saved[k + 3],
            net.saved[k + 4],
            net.saved[k + 5],
            net.saved[k + 6],
            net.saved[k + 7],
        ];
        let end = at + count_records(net.threads[i], saved, holds) * RECORD;
        put_records(&mut out[at..end], net.threads[i], saved, holds);
        at = end;
    }
}

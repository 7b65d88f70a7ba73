// Whole runs over lists of picks.
ghost use Rattle.std.specs.Prelude.{◌≤◌, take};
ghost use Rattle.runs.specs.Runs.{RunIs};

use crate::starting::start;
use crate::summing::{with, with_net};
use net_sound::whole::sound_net;
use nets::{Net, Pick};
use run_state::Ran;
use runs::bytes::run_bytes;
use runs::running::run;

// A run over the first `count` picks: here the array and the count become a slice.
fn lend(net: Net, picks: &[Pick; 100000], count: usize) -> Ran
    requires { count ≤ 100000 }
    ensures { RunIs net (take count picks.now) result }
{
    run(net, &picks[..count])
}

// As many picks as the bytes have, 100,000 at most.
fn count_of(bytes: &[u8]) -> usize
    ensures { result ≤ 100000 }
{
    (bytes.len() / 2).min(100000)
}

fn picks_of(bytes: &[u8]) -> [Pick; 100000] {
    let mut picks = [Pick { thread: 0, row: 0 }; 100000];
    for (pick, pair) in picks.iter_mut().zip(bytes.chunks_exact(2)) {
        *pick = Pick {
            thread: pair[0],
            row: pair[1],
        };
    }
    picks
}

// A number of runs, each over all picks from the start: the sum over their counts and the net that the last one left.
#[unsafe(no_mangle)]
pub extern "C" fn bench_runs(tables: &[u8], program: &[u8], bytes: &[u8], repeats: u64) -> u64 {
    let net = start(tables, program);
    let picks = picks_of(bytes);
    let count = count_of(bytes);
    let mut left = net;
    let mut sum = 0;
    for _ in 0..repeats {
        let r = lend(net, &picks, count);
        sum = with(with(sum, r.added.low), r.taken.low);
        left = r.net;
    }
    with_net(sum, left)
}

// The same with the picks as bytes; there may be any number of them.
#[unsafe(no_mangle)]
pub extern "C" fn bench_bytes(tables: &[u8], program: &[u8], bytes: &[u8], repeats: u64) -> u64 {
    let net = start(tables, program);
    let mut left = net;
    let mut sum = 0;
    for _ in 0..repeats {
        let r = run_bytes(net, bytes);
        sum = with(with(sum, r.added.low), r.taken.low);
        left = r.net;
    }
    with_net(sum, left)
}

// A number of tests of soundness, of which a run has one.
#[unsafe(no_mangle)]
pub extern "C" fn bench_tests(tables: &[u8], program: &[u8], repeats: u64) -> u64 {
    let net = start(tables, program);
    let mut sum = 0;
    for _ in 0..repeats {
        sum = with(sum, sound_net(&net) as u64);
    }
    sum
}

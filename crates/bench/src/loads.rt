// Loading, and sums over what it gave.
use crate::summing::{with, with_net};
use files::{Fault, Loaded};
use load::load;
use nets::Node;

fn with_nodes(before: u64, nodes: &[Node]) -> u64 {
    nodes.iter().fold(before, |sum, n| with(sum, n.next as u64))
}

// The number of the fault, 0 for none: it goes into a sum, as the second engine's does.
fn number_in(verdict: Result<(), Fault>) -> u64 {
    match verdict {
        Ok(()) => 0,
        Err(fault) => fault.number as u64,
    }
}

fn with_loaded(sum: u64, l: Loaded) -> u64 {
    let before = with_net(with(sum, number_in(l.verdict)), l.net);
    with_nodes(before, &l.net.nodes[..l.net.nodecount.min(128)])
}

// A file loaded a number of times.
#[unsafe(no_mangle)]
pub extern "C" fn bench_loads(file: &[u8], repeats: u64) -> u64 {
    let mut sum = 0;
    for _ in 0..repeats {
        sum = with_loaded(sum, load(file));
    }
    sum
}

// The same sums over one load of it: what is no loading in the call above.
#[unsafe(no_mangle)]
pub extern "C" fn bench_loaded(file: &[u8], repeats: u64) -> u64 {
    let l = load(file);
    let mut sum = 0;
    for _ in 0..repeats {
        sum = with_loaded(sum, l);
    }
    sum
}

// Nets at the limits and chains of picks on them, one for each kind of step, for the benchmark of `second/bench`, which hands them over as two files, for the second engine and for this crate.
// The calls take files, lists of picks as bytes, two for each, and plain numbers. A kind says which picks a chain has.
#![tactic(auto)]

use nets::Net;
use running::chain;
use starting::start;
use summing::with_net;

pub mod loads;
pub mod picking;
pub mod running;
pub mod starting;
pub mod summing;
pub mod whole;

// A net, and the sum over the answers so far.
#[derive(Clone, Copy)]
pub struct Chained {
    pub net: Net,
    pub sum: u64,
}

// The sum over the answers of a number of chains from the start, soundness tested at each step.
#[unsafe(no_mangle)]
pub extern "C" fn bench_steps(tables: &[u8], program: &[u8], kind: u8, repeats: u64) -> u64 {
    let net = start(tables, program);
    let mut sum = 0;
    for _ in 0..repeats {
        sum = chain(Chained { net, sum }, kind).sum;
    }
    sum
}

// The sum over the answers of one chain and the net that it leaves.
#[unsafe(no_mangle)]
pub extern "C" fn bench_left(tables: &[u8], program: &[u8], kind: u8) -> u64 {
    let net = start(tables, program);
    let r = chain(Chained { net, sum: 0 }, kind);
    with_net(r.sum, r.net)
}

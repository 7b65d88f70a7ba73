// The picks of a chain. A kind is that of its nodes, 16..22, 25 or 26; 23 stands for create and drop in turn.
use nets::Pick;
use nets::kinds::{is_loop, is_parallel};

// The chain that picks each thread once, before all others.
pub const EACH_THREAD: u8 = 1;

// Nodes 1 to 126, so that the thread goes on; of loops four, each 16 rounds of two picks and one pick more.
pub fn chain_length(kind: u8) -> u64 {
    if kind == EACH_THREAD {
        return 8;
    }
    if is_loop(kind) {
        return 132;
    }
    126
}

// Pick n of a chain, on thread 0; the fork of a parallel loop is thread 7.
pub fn pick_at(kind: u8, n: u64) -> Pick {
    if kind == EACH_THREAD {
        return Pick {
            thread: (n % 8) as u8,
            row: 0,
        };
    }
    if !is_loop(kind) {
        return Pick { thread: 0, row: 0 };
    }
    let m = n % 33;
    let row = (m / 2) as u8;
    if is_parallel(kind) & (m % 2 == 1) {
        return Pick { thread: 7, row };
    }
    Pick { thread: 0, row }
}

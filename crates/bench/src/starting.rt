// The net that chains and runs begin with.
use crate::Chained;
use crate::picking::EACH_THREAD;
use crate::running::chain;
use load::load;
use nets::Net;

// Aliases and tables of one net, nodes and threads of the other.
fn joined(full: Net, program: Net) -> Net {
    let Net {
        aliases,
        aliascount,
        tables,
        tablecount,
        ..
    } = full;
    Net {
        aliases,
        aliascount,
        tables,
        tablecount,
        ..program
    }
}

// Every thread has taken node 0, which binds its table variable 0.
fn prepared(start: Net) -> Net {
    chain(Chained { net: start, sum: 0 }, EACH_THREAD).net
}

// A file has at most 256 records, which is too few for all of such a net, so there are two.
pub fn start(tables: &[u8], program: &[u8]) -> Net {
    prepared(joined(load(tables).net, load(program).net))
}

// What picks leave of a net. Aliases and nodes stay as they are, so that only tables, threads and what the entries of loops hold are handed on.
#![tactic(auto)]

ghost use Rattle.std.specs.Prelude.{◌≡◌};
ghost use Rattle.step_left.specs.Leaving.{left_by};

use nets::{Answer, Net, Saved, Table, Thread};
use value_totals::Total;

// Tables, threads and what the entries of loops hold after some picks, the answer to the last of them, and the sums of rows added and taken.
#[derive(Clone, Copy)]
pub struct Carried {
    pub tables: [Table; 8],
    pub tablecount: usize,
    pub threads: [Thread; 8],
    pub threadcount: usize,
    pub saved: [Saved; 64],
    pub answer: Answer,
    pub added: Total,
    pub taken: Total,
}

// The net after them.
pub fn left_by(net: Net, g: Carried) -> Net
    ensures { result ≡ left_by net g }
{
    let aliases = net.aliases;
    let nodes = net.nodes;
    let tables = g.tables;
    let threads = g.threads;
    let saved = g.saved;
    Net {
        aliases,
        aliascount: net.aliascount,
        tables,
        tablecount: g.tablecount,
        nodes,
        nodecount: net.nodecount,
        threads,
        threadcount: g.threadcount,
        saved,
    }
}

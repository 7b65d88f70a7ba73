// The blank elements that arrays hold where none is in use, and the empty net.
ghost use Rattle.std.specs.Prelude.{◌≡◌};
ghost use Rattle.nets.specs.View.{no_alias};
ghost use Rattle.files.specs.Empty.{blank_operands, blank_node, blank_variable, blank_thread, blank_saved, blank_net};

use load_walk::blanks::{blank_relation, blank_table};
use nets::{Alias, Entry, Frame, Net, Node, Saved, TableVariable, Thread};
use rows::{Function, Operands, Selector, Test};
use values::{Locality, Operand, Site};

pub fn blank_alias() -> Alias
    ensures { result ≡ no_alias }
{
    Alias {
        site: Site(0),
        locality: Locality(0),
        means: Site(0),
    }
}

fn blank_operands() -> Operands
    ensures { result ≡ blank_operands }
{
    let field = Operand::Absent;
    Operands {
        fields: [field; 4],
        count: 0,
    }
}

pub fn blank_node() -> Node
    ensures { result ≡ blank_node }
{
    let none = blank_operands();
    Node {
        kind: 0,
        next: 0,
        body: 0,
        name: 0,
        bound: 0,
        read: 0,
        function: Function::Unused,
        column: 0,
        columns: 0,
        kinds: [0; 4],
        locality: Operand::Absent,
        selector: Selector {
            template: none,
            test: Test::Always,
            left: Operand::Absent,
            right: Operand::Absent,
        },
        tuple: none,
        result: Operand::Absent,
    }
}

fn blank_variable() -> TableVariable
    ensures { result ≡ blank_variable }
{
    None
}

pub fn blank_thread() -> Thread
    ensures { result ≡ blank_thread }
{
    let slot = None;
    let variable = blank_variable();
    let frame = Frame {
        entry: Entry::Run(0),
        visit: [false; 16],
    };
    Thread {
        site: Site(0),
        vars: [slot; 16],
        relations: [variable; 2],
        stack: [frame; 8],
        depth: 0,
    }
}

pub fn blank_saved() -> Saved
    ensures { result ≡ blank_saved }
{
    let slot = None;
    let other = blank_variable();
    Saved {
        vars: [slot; 16],
        other,
    }
}

#[tactic(auto, unfolding(files::specs::Empty::blank_net))]
pub fn blank_net() -> Net
    ensures { result ≡ blank_net }
{
    let alias = blank_alias();
    let table = blank_table();
    let node = blank_node();
    let thread = blank_thread();
    let saved = blank_saved();
    Net {
        aliases: [alias; 56],
        aliascount: 0,
        tables: [table; 8],
        tablecount: 0,
        nodes: [node; 128],
        nodecount: 0,
        threads: [thread; 8],
        threadcount: 0,
        saved: [saved; 64],
    }
}

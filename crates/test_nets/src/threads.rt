// Threads: one above a loop, one with eight entries, and one that holds nothing in range.
ghost use Rattle.std.specs.Prelude.{◌<◌};

use crate::contents::{RIG2, cards, no_relation};
use nets::{Entry, Frame, TableVariable, Thread};
use values::{Locality, Site, Value, Vars};

pub fn to_run(node: u8) -> Frame {
    Frame {
        entry: Entry::Run(node),
        visit: [true; 16],
    }
}

// A loop entry with one row still to visit.
pub fn visiting(node: u8, at: usize) -> Frame
    requires { at < 16 }
{
    let mut visit = [false; 16];
    visit[at] = true;
    Frame {
        entry: Entry::Loop(node),
        visit,
    }
}

// Variables 0, 1 and 2 hold an Int, a Text and a Loc.
fn three_bound() -> Vars {
    let mut vars = [None; 16];
    vars[0] = Some(Value::Int(5));
    vars[1] = Some(Value::Text(RIG2));
    vars[2] = Some(Value::Loc(Locality(1)));
    vars
}

// At site 0, above a loop over table variable 0, on the insert; table variable 1 is unbound.
pub fn busy_thread() -> Thread {
    let none = Frame {
        entry: Entry::Loop(200),
        visit: [true; 16],
    };
    let mut stack = [none; 8];
    stack[0] = visiting(9, 0);
    stack[1] = to_run(0);
    Thread {
        site: Site(0),
        vars: three_bound(),
        relations: [Some(cards()), None],
        stack,
        depth: 2,
    }
}

pub fn eight_entries(thread: Thread) -> Thread {
    Thread {
        stack: [to_run(0); 8],
        depth: 8,
        ..thread
    }
}

pub fn no_vars() -> Vars {
    [Some(Value::Text(3)); 16]
}

pub fn no_variable() -> TableVariable {
    Some(no_relation())
}

pub fn no_thread() -> Thread {
    let none = Frame {
        entry: Entry::Loop(200),
        visit: [true; 16],
    };
    Thread {
        site: Site(9),
        vars: no_vars(),
        relations: [no_variable(); 2],
        stack: [none; 8],
        depth: 0,
    }
}

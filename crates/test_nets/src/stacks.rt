// Threads with some fields exchanged, by bytes.
ghost use Rattle.std.specs.Prelude.{◌<◌};

use crate::contents::{content_of, turned};
use crate::threads::{to_run, visiting};
use nets::{Entry, Frame, TableVariable, Thread};
use record_bytes::{field, text_in};
use rows::Relation;
use values::{Locality, Site, Value};

// At another site, with another count of entries.
fn moved(thread: Thread, site: Site, depth: usize) -> Thread {
    Thread {
        site,
        depth,
        ..thread
    }
}

// Another value in variable 15.
fn holding(thread: Thread, value: Value) -> Thread {
    let mut t = thread;
    t.vars[15] = Some(value);
    t
}

// A Text, or a Loc.
pub fn value_of(kind: u8, text: u32, locality: u8) -> Value {
    if kind == 2 {
        Value::Text(text)
    } else {
        Value::Loc(Locality(locality))
    }
}

// Table variable `at` bound to another content, or unbound.
fn binding(thread: Thread, at: usize, bound: bool, content: Relation) -> Thread
    requires { at < 2 }
{
    let mut t = thread;
    t.relations[at] = bound.then_some(content);
    t
}

// An entry to run, or a loop entry with one row still to visit, or none. The kind is a byte of the test's input, where any byte stands for one of the three.
fn frame_of(kind: u8, node: u8, at: u8) -> Frame {
    match kind {
        0 => to_run(node),
        1 => visiting(node, (at % 16) as usize),
        _ => Frame {
            entry: Entry::Loop(node),
            visit: [false; 16],
        },
    }
}

// Two entries, which may be one, each by its place and three bytes.
fn stacked(thread: Thread, e: [u8; 24]) -> Thread {
    let below = (e[4] % 8) as usize;
    let above = (e[8] % 8) as usize;
    let mut t = thread;
    t.stack[below] = frame_of(e[5], e[6], e[7]);
    t.stack[above] = frame_of(e[9], e[10], e[11]);
    t
}

// An entry to run, 64 more for a loop entry with row 0 still to visit, 128 more for one with none.
fn coded(entry: u8) -> Frame {
    frame_of(entry / 64, entry % 64, 0)
}

// The lowest entry by byte 9, the top, at the place that byte 19 says, by byte 11, and those between by byte 10.
fn entries_of(old: [Frame; 8], e: [u8; 24]) -> [Frame; 8] {
    let between = coded(e[10]);
    let top = (e[19] % 8) as usize;
    let mut stack = old;
    for i in 0..top {
        stack[i] = between;
    }
    stack[0] = coded(e[9]);
    stack[top] = coded(e[11]);
    stack
}

// Table variable 1 is bound, with as many of its rows as byte 18 says.
pub fn nested(thread: Thread, e: [u8; 24]) -> Thread {
    let mut content = turned();
    content.count = e[18] as usize;
    let mut t = binding(thread, 1, true, content);
    let stack = entries_of(t.stack, e);
    t.stack = stack;
    t.depth = (e[19] % 8) as usize + 1;
    t
}

// 14 site and count of entries, 15 a variable, 16 a table variable, 17 entries.
pub fn thread_of(thread: Thread, e: [u8; 24]) -> Thread {
    match e[3] {
        14 => moved(thread, Site(e[4]), e[5] as usize),
        15 => holding(thread, value_of(e[4], text_in(field(&e, 16)), e[5])),
        16 => binding(thread, (e[4] % 2) as usize, e[16] == 1, content_of(e)),
        _ => stacked(thread, e),
    }
}

// What the entries of loops hold: of a sequential loop what the first thread holds before a part of it is exchanged; elsewhere nothing in range. By bytes, one of them exchanged.
use crate::contents::content_of;
use crate::stacks::value_of;
use crate::threads::{no_variable, no_vars};
use nets::{Entry, Frame, Saved, TableVariable, Thread};
use record_bytes::{field, text_in};
use values::Vars;

fn no_saved() -> Saved {
    Saved {
        vars: no_vars(),
        other: no_variable(),
    }
}

// Node 9 is a sequential loop over table variable 0, and node 7, where it is one, over table variable 1.
fn saved_by(thread: Thread, node: u8) -> Saved {
    let vars = thread.vars;
    let [first, second] = thread.relations;
    match node {
        7 => Saved { vars, other: first },
        9 => Saved {
            vars,
            other: second,
        },
        _ => no_saved(),
    }
}

fn saved_for(thread: Thread, frame: Frame) -> Saved {
    match frame.entry {
        Entry::Run(_) => no_saved(),
        Entry::Loop(node) => saved_by(thread, node),
    }
}

// ---- by bytes

// By byte 17: 0 the same, 1 none bound, 2 a Text in variable 15, 3 a Loc there, by bytes 20 to 23.
fn vars_of(vars: Vars, e: [u8; 24]) -> Vars {
    if e[17] == 0 {
        return vars;
    }
    if e[17] == 1 {
        return [None; 16];
    }
    let mut next = vars;
    next[15] = Some(value_of(e[17], text_in(field(&e, 20)), e[20]));
    next
}

// By byte 16: 0 unbound, 1 bound, to another content; 2 the same.
fn other_of(other: TableVariable, e: [u8; 24]) -> TableVariable {
    if e[16] == 2 {
        return other;
    }
    (e[16] == 1).then_some(content_of(e))
}

fn resaved(saved: Saved, e: [u8; 24]) -> Saved {
    Saved {
        vars: vars_of(saved.vars, e),
        other: other_of(saved.other, e),
    }
}

// The one exchanged is at the place that byte 4 says, eight to a thread.
pub fn saved_of(whole: Thread, threads: [Thread; 8], e: [u8; 24]) -> [Saved; 64] {
    let mut saved = [no_saved(); 64];
    for i in 0..64 {
        saved[i] = saved_for(whole, threads[i / 8].stack[i % 8]);
    }
    if e[3] == 18 {
        let at = (e[4] % 64) as usize;
        saved[at] = resaved(saved[at], e);
    }
    saved
}

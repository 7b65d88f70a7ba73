// What the entries of sequential loops hold, and with it whole threads.
ghost use Rattle.std.specs.Prelude.{◌≡◌, ℕ, ◌<◌, true, ◌&&◌, leb, length, map};
ghost use Rattle.std.specs.List.{list_all};
ghost use Rattle.nets.specs.Nets as Model;
ghost use Rattle.nets.specs.Sound.{relation_ok, thread_ok};
ghost use Rattle.net_parts.specs.SoundParts.{bare_thread_ok, all_saved_right, saved_fits};
ghost use Rattle.nets.specs.View.{variable_of, node_of, stack_of, saved_at, thread_of, threads_of};

use crate::threads::{thread_ok, vars_ok};
use net_parts::agreement::same_variable;
use net_parts::relations::variable_right;
use nets::kinds::is_sequential;
use nets::{Entry, Node, Saved, TableVariable, Thread};

// What is saved for the entry of a sequential loop. `own` is the thread's table variable that the loop does not read; the saved one of that number must
// agree with it only if it is held. The one that the loop reads is stored in the thread alone, so there is nothing to compare.
fn saved_ok(b: &Saved, held: bool, own: &TableVariable) -> bool
    requires { relation_ok (variable_of own.now) ≡ true }
    ensures { result ≡ saved_fits held (variable_of own.now) b.now }
{
    vars_ok(&b.vars) && variable_right(&b.other) && (!held || same_variable(own, &b.other))
}

// What the loop entries of the thread at place `i` hold. They are passed from the bottom up, so that at each it is known what those further down hold.
fn entries_right(nodes: &[Node], t: &Thread, saved: &[Saved; 64], i: usize) -> bool
    requires placed { i < 8 }
    requires right { (bs : ℕ → Model.Bindings) → bare_thread_ok (map node_of nodes.now) (thread_of bs t.now) ≡ true }
    ensures { result ≡ all_saved_right (map node_of nodes.now) (map variable_of t.now.relations) (stack_of (saved_at (map node_of nodes.now) saved.now i t.now) t.now.depth t.now.stack) }
{
    let mut held = [false; 2];
    for j in 0..t.depth {
        if let Entry::Loop(at) = t.stack[j].entry {
            let d = &nodes[at as usize];
            let read = d.read as usize;
            held[read] = true;
            let other = 1 - read;
            if is_sequential(d.kind)
                && !saved_ok(&saved[i * 8 + j], held[other], &t.relations[other])
            {
                return false;
            }
        }
    }
    true
}

// The thread at place `i`, with what its loop entries hold.
fn whole_ok(nodes: &[Node], t: &Thread, saved: &[Saved; 64], i: usize) -> bool
    requires { i < 8 }
    ensures { result ≡ thread_ok (map node_of nodes.now) (thread_of (saved_at (map node_of nodes.now) saved.now i t.now) t.now) }
{
    thread_ok(nodes, t) && entries_right(nodes, t, saved, i)
}

// A slice may be longer than a net's array, so the number is judged too: `saved` has the entries of eight threads.
pub fn threads_ok(nodes: &[Node], threads: &[Thread], saved: &[Saved; 64]) -> bool
    ensures { result ≡ (leb (length threads.now) 8 && list_all (thread_ok (map node_of nodes.now)) (threads_of (map node_of nodes.now) saved.now (length threads.now) threads.now)) }
{
    if 8 < threads.len() {
        return false;
    }
    for i in 0..threads.len() {
        if !whole_ok(nodes, &threads[i], saved, i) {
            return false;
        }
    }
    true
}

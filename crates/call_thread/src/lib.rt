// Threads as bytes: for each its site, depth, top entry and node, and a byte for each row that the entry has still to visit.
#![tactic(auto)]

ghost use Rattle.std.specs.Prelude.{◌≡◌, List, map, ◌*◌, ◌<◌, ◌≤◌, length};
ghost use Rattle.values.specs.Lists.{bit, among};
ghost use Rattle.nets.specs.declared.Saved.{Saved};
ghost use Rattle.nets.specs.Nets as M;
ghost use Rattle.nets.specs.View.{threads_of};
ghost use Rattle.value_bytes.specs.Bytes.{end_to_end};
ghost use Rattle.step_thread.specs.ThreadContracts.{Stacked};
ghost use Rattle.call_rules.specs.Layouts.{entry_kind, to_visit, visit_bytes, head_bytes, thread_bytes};
ghost use Rattle.call_rules.specs.Openings.{AllStacked, entry_alone, thread_alone};

use nets::{Entry, Frame, Thread};
use step_thread::{node_of, top_frame};
use values::Site;

// How many bytes a thread has, and where those of the rows still to visit begin.
pub const THREAD: usize = 24;

const VISIT: usize = 8;

// ---- one thread

fn flag(v: bool) -> u8
    ensures { result ≡ bit v }
{
    u8::from(v)
}

// 1 for a row still to visit, 0 for any other.
pub fn visit_bytes(f: Frame) -> [u8; 16]
    ensures { result ≡ visit_bytes (to_visit (entry_alone f)) }
{
    match f.entry {
        Entry::Run(_) => [0; 16],
        Entry::Loop(_) => f.visit.map(flag),
    }
}

// 0 for a node to run, 1 for a loop.
pub fn entry_kind(f: Frame) -> u8
    ensures { result ≡ entry_kind (entry_alone f) }
{
    match f.entry {
        Entry::Run(_) => 0,
        Entry::Loop(_) => 1,
    }
}

fn head_bytes(site: Site, depth: usize, f: Frame) -> [u8; VISIT]
    requires { depth ≤ 8 }
    ensures { result ≡ head_bytes site.0 depth (entry_alone f) }
{
    [site.0, depth as u8, entry_kind(f), node_of(f), 0, 0, 0, 0]
}

fn thread_bytes(t: Thread) -> [u8; THREAD]
    requires { Stacked t }
    ensures { result ≡ thread_bytes (thread_alone t) }
{
    let f = top_frame(t);
    let mut out = [0; THREAD];
    out[..VISIT].copy_from_slice(&head_bytes(t.site, t.depth, f));
    out[VISIT..].copy_from_slice(&visit_bytes(f));
    out
}

// ---- all threads

// What entries hold is no matter.
pub fn put_threads(out: &mut [u8], threads: &[Thread])
    requires { (length threads.now ≤ 8) × AllStacked (length threads.now) threads.now × (length out.old ≡ length threads.now * 24) }
    ensures { (ds : List M.Node) (saved : List Saved) → out.new ≡ end_to_end (map thread_bytes (threads_of ds saved (length threads.now) threads.now)) }
{
    for (i, t) in threads.iter().enumerate() {
        out[i * THREAD..i * THREAD + THREAD].copy_from_slice(&thread_bytes(*t));
    }
}

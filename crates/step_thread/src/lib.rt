// Threads: frames of their stacks, and forking.
#![tactic(auto)]

ghost use Rattle.std.specs.Prelude.{◌≡◌, not, ◌&&◌, [], ◌∷◌, ℕ, ◌-◌, get_or};
ghost use Rattle.nets.specs.Nets as M;
ghost use Rattle.nets.specs.Nets.{is_sequential, to_run};
ghost use Rattle.nets.specs.View.{no_frame, kind_at, node_in, thread_of, bindings_of};
ghost use Rattle.step_thread.specs.ThreadContracts.{is_run, Stacked};

use nets::kinds::is_sequential;
use nets::{Entry, Frame, Refusal, Thread};
use values::Vars;

// A round that is opened: the visit set without the row picked, and the variables with T's formals bound to it.
#[derive(Clone, Copy)]
pub struct Opened {
    pub visit: [bool; 16],
    pub vars: Vars,
}

// What a loop's pick comes to: a round, none where the loop is over, or a refusal.
pub type RoundAnswer = Result<Option<Opened>, Refusal>;

// ---- frames

pub fn run_frame(node: u8) -> Frame
    ensures { result.entry ≡ Entry.Run node }
{
    Frame {
        entry: Entry::Run(node),
        visit: [false; 16],
    }
}

pub fn node_of(f: Frame) -> u8
    ensures { result ≡ node_in f.entry }
{
    match f.entry {
        Entry::Run(i) | Entry::Loop(i) => i,
    }
}

pub fn is_run(f: Frame) -> bool
    ensures { result ≡ is_run f.entry }
{
    matches!(f.entry, Entry::Run(_))
}

// Whether the frame is that of a sequential loop, so that a round ends where the entry above it is removed.
pub fn ends_round(f: Frame, kind: u8) -> bool
    ensures { result ≡ (not (is_run f.entry) && is_sequential (kind_at kind)) }
{
    !is_run(f) & is_sequential(kind)
}

// ---- stacks

pub fn top_frame(t: Thread) -> Frame
    requires { Stacked t }
    ensures { result ≡ get_or t.stack (t.depth - 1) no_frame }
{
    t.stack[t.depth - 1]
}

// A thread at the same site with the same table variables, these variables, and one entry. An entry to run holds nothing, so whatever is saved at its place is no matter.
pub fn forked(t: Thread, vars: Vars, body: u8) -> Thread
    ensures { ((bs : ℕ → M.Bindings) → thread_of bs result ≡ record { site = t.site; bindings = bindings_of vars t.relations; stack = to_run body ∷ [] }) × (result.depth ≡ 1) }
{
    let mut next = t;
    next.vars = vars;
    next.depth = 1;
    next.stack[0] = run_frame(body);
    next
}

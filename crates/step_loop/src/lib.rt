// Rounds of loops: which rows are still to visit, whether the row picked is ready, and what a round binds.
#![tactic(auto)]

ghost use Rattle.std.specs.Prelude.{◌≡◌, Bool, ◌&&◌, ℕ, ◌≤◌, ◌<◌, T, ltb};
ghost use Rattle.values.specs.Lists.{places};
ghost use Rattle.std.specs.List.{list_all, list_any};
ghost use Rattle.rows.specs.View.{relation_of, operands_of, Shaped, Short};
ghost use Rattle.nets.specs.View.{entry_of, marked};
ghost use Rattle.step_reads.specs.ReadContracts.{flag_at};
ghost use Rattle.step_thread.specs.ThreadContracts.{no_bindings, visit_of, ready_at, OpenedIs, RoundIs};
ghost use Rattle.nets.specs.Scenes.{still_to_visit};

use nets::{Entry, Frame, Refusal};
use row_fit::binding::bind_row;
use row_match::{row_matches, wants_of};
use rows::{Operands, Relation};
use step_reads::flag_in;
use step_thread::{Opened, RoundAnswer};
use values::Vars;

// The first n places.
fn all_places(n: usize) -> [bool; 16]
    requires { n ≤ 16 }
    ensures { marked 0 result ≡ places 0 n }
{
    let mut visit = [false; 16];
    for i in 0..n {
        visit[i] = true;
    }
    visit
}

// The rows still to visit: all where the loop is first met.
fn to_visit(frame: Frame, n: usize) -> [bool; 16]
    requires { n ≤ 16 }
    ensures { marked 0 result ≡ still_to_visit (entry_of no_bindings frame) n }
{
    match frame.entry {
        Entry::Run(_) => all_places(n),
        Entry::Loop(_) => frame.visit,
    }
}

// The rows still to visit that match T.
fn ready_places(template: Operands, source: Relation, visit: [bool; 16], vars: Vars) -> [bool; 16]
    requires { Shaped source × Short template × (template.count ≡ source.columns) }
    ensures { (i : ℕ) → flag_at result i ≡ (ltb i source.count && flag_at visit i && ready_at vars (operands_of template) (relation_of source) i) }
{
    let wants = wants_of(template.used(), vars);
    let mut ready = [false; 16];
    for i in 0..source.count {
        ready[i] = visit[i] & row_matches(&wants, &source.rows[i]);
    }
    ready
}

fn any_place(flags: [bool; 16]) -> bool
    ensures { result ≡ list_any (λ (b : Bool). b) flags }
{
    flags.iter().any(|flag| *flag)
}

// The row's place leaves the set, and T's formals bind to the row.
fn opened(template: Operands, source: Relation, visit: [bool; 16], vars: Vars, row: u8) -> Opened
    requires { Shaped source × Short template × (template.count ≡ source.columns) × (row < source.count) }
    ensures { OpenedIs vars (operands_of template) (relation_of source) (marked 0 visit) row result }
{
    let at = row as usize;
    let picked = source.rows[at];
    let mut left = visit;
    left[at] = false;
    Opened {
        visit: left,
        vars: bind_row(template.used(), picked.values(source.columns), vars),
    }
}

// A loop's pick. Every place to visit is a row of the source. `room` is what check 20 asks: only the caller knows whether of threads or of the stack.
pub fn round(
    template: Operands,
    source: Relation,
    frame: Frame,
    vars: Vars,
    row: u8,
    room: bool,
) -> RoundAnswer
    requires { Shaped source × Short template × T (list_all (λ (i : ℕ). ltb i source.count) (visit_of frame (relation_of source))) }
    ensures { RoundIs vars (operands_of template) (relation_of source) frame row room result }
{
    if template.count != source.columns {
        return Err(Refusal::Misfit);
    }
    let visit = to_visit(frame, source.count);
    let ready = ready_places(template, source, visit, vars);
    if !any_place(ready) {
        return Ok(None);
    }
    if !flag_in(ready, row) {
        return Err(Refusal::NotReady);
    }
    if !room {
        return Err(Refusal::Full);
    }
    Ok(Some(opened(template, source, visit, vars, row)))
}

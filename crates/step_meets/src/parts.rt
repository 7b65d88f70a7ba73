// The parts of a decision: its answer, where the thread goes on, which table variables are bound, and the rows spoken of.
ghost use Rattle.std.specs.Prelude.{◌≡◌, cond, ◌&&◌, map, ℕ, ◌≤◌, length, None, unwrap_or};
ghost use Rattle.nets.specs.Nets.{reads_relation};
ghost use Rattle.nets.specs.Steps.{is_bound_table};
ghost use Rattle.nets.specs.View.{kind_at, variable_of};
ghost use Rattle.step_reads.specs.ReadContracts.{flag_at};
ghost use Rattle.step_meets.specs.Situations.{Onward, answer_in};

use crate::{Decided, Decision};
use nets::kinds::reads_relation;
use nets::{Answer, Done, Frame, TableVariable, Thread};
use rows::Relation;
use step_thread::run_frame;
use values::Vars;

// The answer of a decision.
pub fn answer_of(decision: Decision) -> Answer
    ensures { result ≡ answer_in decision }
{
    Ok(decision?.done)
}

// Done: to next, or with 255 the entry is removed.
pub fn onward(depth: usize, frame: Frame, next: u8, vars: Vars, done: Done) -> Decided
    requires { 1 ≤ depth }
    ensures { (result.done ≡ done) × (result.inner ≡ None) × (result.vars ≡ vars) × Onward depth next result }
{
    let stays = Decided {
        done,
        saves: false,
        frame,
        depth,
        vars,
        inner: None,
    };
    if next == 255 {
        return Decided {
            depth: depth - 1,
            ..stays
        };
    }
    Decided {
        frame: run_frame(next),
        ..stays
    }
}

// The table variables that are bound. The contract also says how long the stack's array is, which a caller that reads the thread from a list can't tell by itself.
pub fn bound_tables(t: Thread) -> [bool; 2]
    ensures { ((i : ℕ) → flag_at result i ≡ is_bound_table (map variable_of t.relations) i) × (length t.stack ≡ 8) }
{
    [t.relations[0].is_some(), t.relations[1].is_some()]
}

// The rows that the step speaks of: those of the table variable read, or of the table.
pub fn source_of(kind: u8, v: TableVariable, content: Relation) -> Relation
    ensures { result ≡ cond (reads_relation (kind_at kind)) (unwrap_or v content) content }
{
    if reads_relation(kind) {
        return v.unwrap_or(content);
    }
    content
}

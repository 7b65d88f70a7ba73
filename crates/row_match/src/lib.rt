// Matching: the wants of a template, and the rows that meet them.
#![tactic(auto)]

ghost use Rattle.std.specs.Prelude.{◌≡◌, ◌≤◌, length, not, position, zip};
ghost use Rattle.values.specs.Lists.{agree, looked_at};
ghost use Rattle.rows.specs.Looking.{MatchedIs};
ghost use Rattle.rows.specs.Plans.{want_of, want_at, meets, wants_met, WantsAre};

use rows::{Matched, Row, Want};
use std::array;
use std::cmp::Ordering;
use value_eval::eval_in;
use value_order::compare::got_order;
use values::{Operand, Value, Vars};

pub fn want_of(op: Operand, vars: Vars) -> Want
    ensures { result ≡ want_of vars op }
{
    match op {
        Operand::Formal(_) => Want::Anything,
        _ => Want::Like(eval_in(op, vars)),
    }
}

pub fn met(w: Want, v: Value) -> bool
    ensures { result ≡ meets w v }
{
    match w {
        Want::Anything => true,
        Want::Like(g) => got_order(g, Some(v)) == Some(Ordering::Equal),
    }
}

// The want at a place of T; past its end anything will do.
fn wanted_at(template: &[Operand], i: usize, vars: Vars) -> Want
    ensures { result ≡ want_at vars template.now i }
{
    match template.get(i) {
        None => Want::Anything,
        Some(op) => want_of(*op, vars),
    }
}

// Four, whatever T's length, so that the loop has a fixed bound for steps.
pub fn wants_of(template: &[Operand], vars: Vars) -> [Want; 4]
    ensures { WantsAre vars template.now result }
{
    array::from_fn(|i| wanted_at(template, i, vars))
}

// The one loop of matching: the fields that T and the row both have, from the first on, up to one that does not match. There the row is left.
fn first_unmet(wants: &[Want], row: &[Value]) -> Option<usize>
    ensures { result ≡ position (λ x. not (meets x.0 x.1)) (zip wants.now row.now) }
{
    wants.iter().zip(row).position(|(w, v)| !met(*w, *v))
}

// Whether the fields match, and how many of them were looked at.
pub fn look_at_fields(wants: &[Want], row: &[Value]) -> Matched
    ensures { (result.matches ≡ agree meets wants.now row.now) × (result.looked ≡ looked_at meets wants.now row.now) }
{
    match first_unmet(wants, row) {
        None => Matched {
            matches: wants.len() == row.len(),
            looked: wants.len().min(row.len()),
        },
        Some(at) => Matched {
            matches: false,
            looked: at + 1, // the failing field was looked at, too
        },
    }
}

// For steps, which want the answer alone.
pub fn row_matches(wants: &[Want; 4], row: &Row) -> bool
    ensures { result ≡ wants_met wants.now row.now.cells }
{
    look_at_fields(wants, &row.cells).matches
}

// Matching as the rule has it, also for a row of another length than T's: the fields that both have are looked at, and such a row does not match.
pub fn match_row(template: &[Operand], vars: Vars, row: &[Value]) -> Matched
    ensures { length template.now ≤ 4 → MatchedIs vars template.now row.now result }
{
    let wants = wants_of(template, vars);
    look_at_fields(&wants[..template.len().min(4)], row)
}

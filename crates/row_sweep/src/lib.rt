// One pass over the rows of a relation, which marks rows and puts new ones at their places. Every row is judged as it stood before.
#![tactic(auto)]

ghost use Rattle.std.specs.Prelude.{◌≡◌, ◌≤◌};
ghost use Rattle.rows.specs.View.{draft_of};
ghost use Rattle.row_change.specs.ChangeContracts.{given_by, JudgedRow, SweptIs};

use row_change::{Pass, Swept};
use row_fit::fit::{fits_columns, row_of};
use row_plan::row_hits;
use row_terms::term_got;
use rows::{Draft, Plan, Relation, Row, Terms};

// What t gives for a row. As `draft_of` of row_fit, but of terms: what the two share is the `map`.
fn draft_for(terms: Terms, row: &Row) -> Draft
    ensures { (draft_of result ≡ given_by terms row.now) × (result.count ≡ terms.count) }
{
    let slots = terms.components.map(|term| term_got(term, row));
    Draft {
        slots,
        count: terms.count,
    }
}

// What stands at a row's place after the pass, if the row is marked.
fn judge(plan: &Plan, pass: Pass, terms: Terms, kinds: &[u8], row: &Row) -> Option<Row>
    requires { terms.count ≤ 4 }
    ensures { JudgedRow plan.now pass terms kinds.now row.now result }
{
    if !row_hits(plan, row) {
        return None;
    }
    match pass {
        Pass::Mark => Some(*row),
        Pass::Select => Some(row_of(draft_for(terms, row))),
        Pass::Update => {
            let draft = draft_for(terms, row);
            if fits_columns(kinds, draft.given()) {
                return Some(row_of(draft));
            }
            None
        }
    }
}

// The first n rows, whatever the relation's own count.
// One that is marked is replaced at the place it is read from, and every place is read once: a new row is never judged again.
// The relation is passed by value: lent, it was tried, and the proof of the loop did not close.
pub fn swept(r: Relation, n: usize, plan: &Plan, pass: Pass, terms: Terms, kinds: &[u8]) -> Swept
    requires { (n ≤ 16) × (terms.count ≤ 4) }
    ensures { SweptIs plan.now pass terms kinds.now n r.rows result }
{
    let mut rows = r.rows;
    let mut flags = [false; 16];
    for i in 0..n {
        if let Some(new) = judge(plan, pass, terms, kinds, &rows[i]) {
            rows[i] = new;
            flags[i] = true;
        }
    }
    Swept { rows, flags }
}

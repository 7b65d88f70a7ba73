// What a row adds to the content of its table, and checks 7 and 8 of it.
ghost use Rattle.std.specs.Prelude.{IfOk, ◌≡◌, [], ◌∷◌, ◌++◌, ◌≤◌, ltb, length};
ghost use Rattle.std.specs.Result.{result_err};
ghost use Rattle.values.specs.Operands.{values_in};
ghost use Rattle.rows.specs.View.{relation_of, draft_of, Shaped};
ghost use Rattle.rows.specs.Fit.{fits};
ghost use Rattle.row_change.specs.ChangeContracts.{Holds};
ghost use Rattle.nets.specs.Steps.{check};
ghost use Rattle.load_walk.specs.Walking.{first_fault};

use files::Fault;
use row_change::appending::push;
use row_fit::fit::{fits_columns, row_of};
use rows::{Draft, Relation};

// Checks 7 and 8 of the row at a place: does it fit the columns, and is there room for it? It goes last.
pub fn content_with(place: usize, content: Relation, d: Draft) -> Result<Relation, Fault>
    requires { Shaped content × (d.count ≤ 4) }
    ensures fault { result_err result ≡ first_fault place (check 7 (fits (relation_of content).columns (draft_of d)) ∷ check 8 (ltb (length (relation_of content).rows) 16) ∷ []) }
    ensures row { IfOk result (λ o. Holds o (relation_of content).columns ((relation_of content).rows ++ (values_in (draft_of d) ∷ []))) }
{
    if !fits_columns(content.column_kinds(), d.given()) {
        return Err(Fault { number: 7, place });
    }
    if content.count >= 16 {
        return Err(Fault { number: 8, place });
    }
    Ok(push(content, row_of(d)))
}

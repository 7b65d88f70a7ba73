// What tuples give, and whether they fit columns.
ghost use Rattle.std.specs.Prelude.{◌≡◌, T, map};
ghost use Rattle.values.specs.Operands.{is_got, values_in, value_in};
ghost use Rattle.std.specs.List.{list_all};
ghost use Rattle.rows.specs.View.{operands_of, values_of, draft_of};
ghost use Rattle.rows.specs.Fit.{draft, of_kind, fits, same_columns};

use rows::{Draft, Operands, Row, fits_column};
use value_eval::eval_in;
use values::{Value, Vars};

// ---- drafts

// What t gives with no row.
pub fn draft_of(t: Operands, vars: Vars) -> Draft
    ensures { (draft_of result ≡ draft vars (operands_of t)) × (result.count ≡ t.count) }
{
    let slots = t.fields.map(|op| eval_in(op, vars));
    Draft {
        slots,
        count: t.count,
    }
}

// The row of a draft that gives all its values. Where one is missing, the Int 0 stands in its cell.
pub fn row_of(d: Draft) -> Row
    ensures values { T (list_all is_got (draft_of d)) → values_of d.count result ≡ values_in (draft_of d) }
    ensures cells { result.cells ≡ map value_in d.slots }
{
    let cells = d.slots.map(|s| s.unwrap_or(Value::Int(0)));
    Row { cells }
}

// ---- fit

fn of_kind(kind: u8, g: Option<Value>) -> bool
    ensures { result ≡ of_kind kind g }
{
    match g {
        None => false,
        Some(v) => fits_column(kind, v),
    }
}

// As many values as columns, each of its column's kind.
pub fn fits_columns(kinds: &[u8], given: &[Option<Value>]) -> bool
    ensures { result ≡ fits kinds.now given.now }
{
    kinds.len() == given.len() && kinds.iter().zip(given).all(|(k, g)| of_kind(*k, *g))
}

// The rule's own test, tied to `==` once for all that ask it.
pub fn same_columns(ks: &[u8], js: &[u8]) -> bool
    ensures { result ≡ same_columns ks.now js.now }
{
    ks == js
}

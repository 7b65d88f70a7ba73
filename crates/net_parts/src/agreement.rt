// Table variables that agree: both unbound, or both bound with equal columns and equal rows in order. What an array has past its count does not matter.
ghost use Rattle.std.specs.Prelude.{◌≡◌, true, ◌≤◌, map};
ghost use Rattle.values.specs.Lists.{agree};
ghost use Rattle.values.specs.Values.{same_row};
ghost use Rattle.rows.specs.View.{values_of};
ghost use Rattle.nets.specs.Sound.{relation_ok, same_relation};
ghost use Rattle.nets.specs.View.{variable_of};

use nets::TableVariable;
use row_fit::fit::same_columns;
use rows::Row;
use values::Value;

// A function, since within the closure below the proof did not see through `==`.
fn same_row(a: &[Value], b: &[Value]) -> bool
    ensures { result ≡ same_row a.now b.now }
{
    a == b
}

// Of rows with `columns` values each; not `==` of rows, whose cells past the columns do not matter.
fn same_rows(columns: usize, xs: &[Row], ys: &[Row]) -> bool
    requires { columns ≤ 4 }
    ensures { result ≡ agree same_row (map (values_of columns) xs.now) (map (values_of columns) ys.now) }
{
    xs.len() == ys.len()
        && xs
            .iter()
            .zip(ys)
            .all(|(x, y)| same_row(x.values(columns), y.values(columns)))
}

// Not `==`, by which what an array has past its count would matter.
pub fn same_variable(a: &TableVariable, b: &TableVariable) -> bool
    requires { (relation_ok (variable_of a.now) ≡ true) × (relation_ok (variable_of b.now) ≡ true) }
    ensures { result ≡ same_relation (variable_of a.now) (variable_of b.now) }
{
    match (a, b) {
        (Some(r), Some(s)) => {
            same_columns(r.column_kinds(), s.column_kinds())
                && same_rows(r.columns, r.used(), s.used())
        }
        (None, None) => true,
        _ => false,
    }
}

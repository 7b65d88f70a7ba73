// Count, sum, least and largest over the rows of a relation.
#![tactic(auto)]

ghost use Rattle.std.specs.Prelude.{◌≡◌, ◌≤◌, ◌<◌, ℕ, List, T, length, map};
ghost use Rattle.rows.specs.View.{values_of, columns_of};
ghost use Rattle.row_change.specs.Aggregates.{int_at, column, total, smaller, larger, best, aggregated, column_fits};

use rows::{Function, Row};
use value_eval::int_within;
use values::Value;

// The Int at a place of a row; whatever else stands there, or nothing, adds 0.
fn int_at(row: &Row, at: usize) -> i32
    ensures { result ≡ int_at at row.now.cells }
{
    match row.cells.get(at) {
        Some(Value::Int(i)) => *i,
        _ => 0,
    }
}

// The whole sum, in 64 bits, of rows with a column at that place. A `for`, since of `sum` over signed numbers no bound is known.
pub fn total_of(rows: &[Row], at: usize) -> i64
    requires { length rows.now ≤ 16 }
    ensures { (w : ℕ) → at < w → result ≡ total (column at (map (values_of w) rows.now)) }
{
    let mut sum: i64 = 0;
    for row in rows {
        sum += int_at(row, at) as i64;
    }
    sum
}

// Of no rows nothing.
fn least(rows: &[Row], at: usize) -> Option<Value>
    ensures { (w : ℕ) → at < w → result ≡ best smaller (column at (map (values_of w) rows.now)) }
{
    rows.iter().map(|row| int_at(row, at)).min().map(Value::Int)
}

fn largest(rows: &[Row], at: usize) -> Option<Value>
    ensures { (w : ℕ) → at < w → result ≡ best larger (column at (map (values_of w) rows.now)) }
{
    rows.iter().map(|row| int_at(row, at)).max().map(Value::Int)
}

// Of rows read as columns that the function fits, whatever these are.
pub fn aggregate(f: Function, at: u8, rows: &[Row]) -> Option<Value>
    requires { length rows.now ≤ 16 }
    ensures { (w : ℕ) (kinds : List ℕ) → T (column_fits f at (columns_of w kinds)) → result ≡ aggregated f at (map (values_of w) rows.now) }
{
    let i = at as usize;
    match f {
        Function::Unused => None,
        Function::Count => Some(Value::Int(rows.len() as i32)),
        Function::Sum => int_within(total_of(rows, i)),
        Function::Least => least(rows, i),
        Function::Largest => largest(rows, i),
    }
}

// Relations in their ranges, and the tables and table variables that hold them.
ghost use Rattle.std.specs.Prelude.{◌≡◌, ◌&&◌, ℕ, ◌≤◌, leb, length, map, Some};
ghost use Rattle.std.specs.List.{list_all};
ghost use Rattle.rows.specs.View.{values_of, columns_of, rows_of, relation_of};
ghost use Rattle.nets.specs.Tables.{rows_fit};
ghost use Rattle.nets.specs.Sound.{columns_ok, table_ok, relation_ok};
ghost use Rattle.nets.specs.View.{table_of, variable_of};
ghost use Rattle.net_parts.specs.SoundParts.{cell_ok, row_ok};

use crate::ranges::{is_text, locality_ok, site_ok};
use nets::{Table, TableVariable};
use rows::{Relation, Row};
use values::Value;
use values::kinds::{INT, LOC, TEXT};

fn kind_ok(k: u8) -> bool
    ensures { result ≡ (leb 1 k && leb k 3) }
{
    (INT..=LOC).contains(&k)
}

fn all_kinds(kinds: &[u8]) -> bool
    ensures { result ≡ list_all (λ k. leb 1 k && leb k 3) kinds.now }
{
    kinds.iter().all(|k| kind_ok(*k))
}

// The count is judged here, since it may come from outside.
pub fn columns_ok(columns: usize, kinds: [u8; 4]) -> bool
    ensures { result ≡ columns_ok (columns_of columns kinds) }
{
    let Some(used) = kinds.get(..columns) else {
        return false;
    };
    !used.is_empty() & all_kinds(used)
}

// A value of its column's kind, in range. One match for both, in place of `fits_column` and `in_range`: it is asked of every cell at each step, and
// two matches cost a step 4 %. Any i32 is in range; its arm binds it so that the proof has its bounds.
fn cell_ok(kind: u8, c: Value) -> bool
    ensures { result ≡ cell_ok kind c }
{
    match c {
        Value::Int(_i) => kind == INT,
        Value::Text(t) => (kind == TEXT) & is_text(t),
        Value::Loc(l) => (kind == LOC) & locality_ok(l),
    }
}

fn row_ok(kinds: &[u8], values: &[Value]) -> bool
    ensures { result ≡ row_ok kinds.now values.now }
{
    kinds.len() == values.len() && kinds.iter().zip(values).all(|(k, v)| cell_ok(*k, *v))
}

fn rows_ok(kinds: &[u8], rows: &[Row]) -> bool
    requires { length kinds.now ≤ 4 }
    ensures { result ≡ list_all (λ r. row_ok kinds.now (values_of (length kinds.now) r)) rows.now }
{
    rows.iter().all(|r| row_ok(kinds, r.values(kinds.len())))
}

// Columns, ranges and fit.
fn relation_ok(r: &Relation) -> bool
    ensures { result ≡ relation_ok (Some (relation_of r.now)) }
{
    let Some(rows) = r.rows.get(..r.count) else {
        return false;
    };
    columns_ok(r.columns, r.kinds) && rows_ok(r.column_kinds(), rows)
}

pub fn table_ok(t: &Table) -> bool
    ensures { result ≡ (table_ok (table_of t.now) && rows_fit (table_of t.now)) }
{
    site_ok(t.site) & is_text(t.name) & relation_ok(&t.content)
}

pub fn variable_right(v: &TableVariable) -> bool
    ensures { result ≡ relation_ok (variable_of v.now) }
{
    v.as_ref().is_none_or(relation_ok)
}

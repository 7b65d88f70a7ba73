// The cells of a page, 13 bytes each.
ghost use Rattle.std.specs.Prelude.{◌≡◌, [], ◌∷◌, ◌<◌, ◌≤◌, T};
ghost use Rattle.std.specs.List.{list_all};
ghost use Rattle.values.specs.Values.{locality_ok, bytes_of, in_range};
ghost use Rattle.value_decimal.specs.Decimals.{digit};
ghost use Rattle.rows.specs.View.{values_of, relation_of, Shaped};
ghost use Rattle.nets.specs.Sound.{rows_ok};
ghost use Rattle.page_rules.specs.Pages.{left_aligned, cell, row_cell, sum_cell};

use row_aggregate::total_of;
use rows::{Relation, Row, kind_at};
use value_decimal::put_signed;
use values::{Locality, Value};

// The bytes of a cell.
pub const CELL: usize = 13;

fn text_cell(t: u32) -> [u8; CELL]
    ensures { result ≡ left_aligned (bytes_of t) }
{
    let mut out = [b' '; CELL];
    out[0..4].copy_from_slice(&t.to_be_bytes());
    out
}

// A Loc: @ and its digit.
fn loc_cell(l: Locality) -> [u8; CELL]
    requires { T (locality_ok l) }
    ensures { result ≡ left_aligned (0x40 ∷ digit l.0 ∷ []) }
{
    let mut out = [b' '; CELL];
    out[0] = b'@';
    out[1] = 48 + l.0;
    out
}

fn value_cell(v: Value) -> [u8; CELL]
    requires { T (in_range v) }
    ensures { result ≡ cell v }
{
    match v {
        Value::Int(i) => {
            let mut out = [0; CELL];
            put_signed(&mut out, i as i64);
            out
        }
        Value::Text(t) => text_cell(t),
        Value::Loc(l) => loc_cell(l),
    }
}

// The cell of a row in a column; past the row's last column it is blank.
pub fn row_cell(row: Row, columns: usize, i: usize) -> [u8; CELL]
    requires { (columns ≤ 4) × T (list_all in_range (values_of columns row)) }
    ensures { result ≡ row_cell (values_of columns row) i }
{
    if i < columns {
        value_cell(row.cells[i])
    } else {
        [b' '; CELL]
    }
}

// The sum of an Int column over all rows; in any other column it is blank.
pub fn sum_cell(r: Relation, i: usize) -> [u8; CELL]
    requires { (i < 4) × Shaped r × T (rows_ok (relation_of r).rows) }
    ensures { result ≡ sum_cell (relation_of r) i }
{
    if kind_at(r.column_kinds(), i) != 1 {
        return [b' '; CELL];
    }
    let mut out = [0; CELL];
    put_signed(&mut out, total_of(r.used(), i));
    out
}

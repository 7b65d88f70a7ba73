// The lines of a page, 53 bytes each: four cells and a line feed.
ghost use Rattle.std.specs.Prelude.{◌≡◌, map, ◌*◌, ◌+◌, ◌≤◌, T, length};
ghost use Rattle.std.specs.List.{list_all};
ghost use Rattle.values.specs.Values.{in_range};
ghost use Rattle.value_bytes.specs.Bytes.{end_to_end};
ghost use Rattle.rows.specs.View.{values_of, relation_of, Shaped};
ghost use Rattle.nets.specs.Sound.{rows_ok};
ghost use Rattle.page_rules.specs.Pages.{line_of, row_cell, sum_cell, page_of};

use crate::cells::{CELL, row_cell, sum_cell};
use rows::{Relation, Row};

// The bytes of a line, and the place of its line feed.
pub const LINE: usize = 53;

const FEED: usize = 52;

// The line of a row.
fn row_line(row: Row, columns: usize) -> [u8; LINE]
    requires { (columns ≤ 4) × T (list_all in_range (values_of columns row)) }
    ensures { result ≡ line_of (row_cell (values_of columns row)) }
{
    let mut out = [0; LINE];
    for i in 0..4 {
        out[i * CELL..i * CELL + CELL].copy_from_slice(&row_cell(row, columns, i));
    }
    out[FEED] = b'\n';
    out
}

// The last line.
fn sums_line(r: Relation) -> [u8; LINE]
    requires { Shaped r × T (rows_ok (relation_of r).rows) }
    ensures { result ≡ line_of (sum_cell (relation_of r)) }
{
    let mut out = [0; LINE];
    for i in 0..4 {
        out[i * CELL..i * CELL + CELL].copy_from_slice(&sum_cell(r, i));
    }
    out[FEED] = b'\n';
    out
}

// The lines of all rows.
fn put_rows(out: &mut [u8], r: Relation)
    requires { (length out.old ≡ r.count * 53) × Shaped r × T (rows_ok (relation_of r).rows) }
    ensures { out.new ≡ end_to_end (map (λ row. line_of (row_cell row)) (relation_of r).rows) }
{
    for i in 0..r.count {
        out[i * LINE..i * LINE + LINE].copy_from_slice(&row_line(r.rows[i], r.columns));
    }
}

// How long a table's page is.
pub fn page_size(r: Relation) -> usize
    requires { Shaped r × T (rows_ok (relation_of r).rows) }
    ensures { (result ≡ length (page_of (relation_of r))) × (result ≡ (r.count + 1) * 53) }
{
    (r.count + 1) * LINE
}

// A table's page, into a part that has just its length.
pub fn put_page(out: &mut [u8], r: Relation)
    requires { (length out.old ≡ (r.count + 1) * 53) × Shaped r × T (rows_ok (relation_of r).rows) }
    ensures { out.new ≡ page_of (relation_of r) }
{
    let last = r.count * LINE;
    put_rows(&mut out[0..last], r);
    out[last..last + LINE].copy_from_slice(&sums_line(r));
}

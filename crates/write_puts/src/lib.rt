// A table or a row written as a record, and the rows of one table.
#![tactic(auto)]

ghost use Rattle.std.specs.Prelude.{◌≡◌, map, ◌*◌, ◌≤◌, length};
ghost use Rattle.rows.specs.View.{values_of, relation_of};
ghost use Rattle.nets.specs.View.{table_of};
ghost use Rattle.record_bytes.specs.Encoding.{row_bytes, table_bytes};
ghost use Rattle.value_bytes.specs.Bytes.{end_to_end};

use nets::Table;
use record_bytes::{KINDS, KINDS_END, LEFT, RECORD, TUPLE};
use rows::{Relation, Row};
use values::Site;
use write_fields::{column_bytes, start_bytes, tuple_bytes};

// A row record.
fn row_record(site: Site, name: u32, row: Row, columns: usize) -> [u8; RECORD]
    requires { columns ≤ 4 }
    ensures { result ≡ row_bytes site name (values_of columns row) }
{
    let mut out = [0; RECORD];
    out[..KINDS].copy_from_slice(&start_bytes(3, site, name));
    out[TUPLE..LEFT].copy_from_slice(&tuple_bytes(row, columns));
    out
}

// A table record.
pub fn table_record(t: &Table) -> [u8; RECORD]
    ensures { result ≡ table_bytes (table_of t.now) }
{
    let mut out = [0; RECORD];
    // Columns past the fourth have no bytes.
    let kinds = &t.content.kinds[..t.content.columns.min(4)];
    out[..KINDS].copy_from_slice(&start_bytes(2, t.site, t.name));
    out[KINDS..KINDS_END].copy_from_slice(&column_bytes(kinds));
    out
}

// The row records of a table.
pub fn put_rows(out: &mut [u8], site: Site, name: u32, content: Relation)
    requires { (content.count ≤ 16) × (content.columns ≤ 4) × (length out.old ≡ content.count * 104) }
    ensures { out.new ≡ end_to_end (map (row_bytes site name) (relation_of content).rows) }
{
    for i in 0..content.count {
        let record = row_record(site, name, content.rows[i], content.columns);
        out[i * RECORD..i * RECORD + RECORD].copy_from_slice(&record);
    }
}

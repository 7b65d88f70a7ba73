// All tables of a net, then their rows table by table, as records in a lent buffer that has room for them.
ghost use Rattle.std.specs.Prelude.{◌≡◌, map, ◌*◌, ◌≤◌, T, length};
ghost use Rattle.std.specs.List.{list_all};
ghost use Rattle.nets.specs.Sound.{table_ok};
ghost use Rattle.nets.specs.View.{table_of};
ghost use Rattle.record_bytes.specs.Encoding.{table_bytes};
ghost use Rattle.value_bytes.specs.Bytes.{end_to_end};
ghost use Rattle.files.specs.Writing.{all_rows, written, written_answer, buffer_after};
ghost use Rattle.files.specs.Engine.{said_written};
ghost use Rattle.write.specs.WriteCall.{if_room};

use files::NotWritten;
use nets::Table;
use record_bytes::RECORD;
use write_puts::{put_rows, table_record};

// How many rows all tables have.
fn total_rows(tables: &[Table]) -> usize
    requires { (length tables.now ≤ 8) × T (list_all table_ok (map table_of tables.now)) }
    ensures { (length (end_to_end (all_rows (map table_of tables.now))) ≡ result * 104) × (result ≤ 128) }
{
    let mut total = 0;
    for t in tables {
        total += t.content.count;
    }
    total
}

// How long the records of all tables and rows are.
pub fn tables_size(tables: &[Table]) -> usize
    requires { (length tables.now ≤ 8) × T (list_all table_ok (map table_of tables.now)) }
    ensures { (result ≡ length (written (map table_of tables.now))) × (result ≤ 14144) }
{
    tables.len() * RECORD + total_rows(tables) * RECORD
}

// The table records.
fn put_tables(out: &mut [u8], tables: &[Table])
    requires { (length tables.now ≤ 8) × (length out.old ≡ length tables.now * 104) }
    ensures { out.new ≡ end_to_end (map table_bytes (map table_of tables.now)) }
{
    for (i, t) in tables.iter().enumerate() {
        out[i * RECORD..i * RECORD + RECORD].copy_from_slice(&table_record(t));
    }
}

// The row records, table by table.
fn put_contents(out: &mut [u8], tables: &[Table])
    requires { (length tables.now ≤ 8) × T (list_all table_ok (map table_of tables.now)) × (length out.old ≡ length (end_to_end (all_rows (map table_of tables.now)))) }
    ensures { out.new ≡ end_to_end (all_rows (map table_of tables.now)) }
{
    let mut at = 0;
    for t in tables {
        let end = at + t.content.count * RECORD;
        put_rows(&mut out[at..end], t.site, t.name, t.content);
        at = end;
    }
}

// The records of a sound net's tables, where the buffer has room for them.
pub fn write_tables(out: &mut [u8], tables: &[Table]) -> Result<usize, NotWritten>
    requires { (length tables.now ≤ 8) × T (list_all table_ok (map table_of tables.now)) }
    ensures { (said_written result ≡ written_answer (if_room (written (map table_of tables.now)) out.old)) × (out.new ≡ buffer_after out.old (if_room (written (map table_of tables.now)) out.old)) }
{
    let heads = tables.len() * RECORD;
    let size = tables_size(tables);
    if out.len() < size {
        return Err(NotWritten::Short);
    }
    put_tables(&mut out[0..heads], tables);
    put_contents(&mut out[heads..size], tables);
    Ok(size)
}

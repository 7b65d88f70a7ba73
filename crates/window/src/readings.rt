// The Int that a row record has in a column: check 24.
ghost use Rattle.std.specs.Prelude.{◌≡◌, ◌≤◌, length, get_or, None};
ghost use Rattle.rows.specs.View.{draft_of};
ghost use Rattle.window_rules.specs.Windows.{value_int, counted_int};
ghost use Rattle.window.specs.WindowCalls.{got_int};

use record_bytes::RECORD;
use record_nodes::tuples::row_read;
use rows::Draft;
use values::Value;

// The kind of a row record.
const ROW: u8 = 3;

fn value_int(v: Value) -> Option<i32>
    ensures { result ≡ value_int v }
{
    match v {
        Value::Int(i) => Some(i),
        Value::Text(_) | Value::Loc(_) => None,
    }
}

fn draft_int(d: Draft, column: usize) -> Option<i32>
    requires { d.count ≤ 4 }
    ensures { result ≡ got_int (get_or (draft_of d) column None) }
{
    value_int((*d.slots[..d.count].get(column)?)?)
}

// One of another kind is no row, whatever else is wrong with it.
fn record_int(r: &[u8; RECORD], column: usize) -> Option<i32>
    ensures { result ≡ counted_int column r.now }
{
    if r[0] != ROW {
        return None;
    }
    draft_int(row_read(r)?, column)
}

// None where the record is refused with 24.
pub fn reading_in(record: &[u8], column: usize) -> Option<i32>
    ensures { result ≡ counted_int column «record».now }
{
    record_int(record.as_array()?, column)
}

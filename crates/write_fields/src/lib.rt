// Fields of table and row records, each written into its own bytes.
#![tactic(auto)]

ghost use Rattle.std.specs.Prelude.{◌≡◌, ◌≤◌};
ghost use Rattle.rows.specs.View.{values_of};
ghost use Rattle.record_bytes.specs.Encoding.{operand_bytes, tuple_bytes, start_bytes, column_bytes};

use record_bytes::OPERAND;
use rows::Row;
use std::array;
use values::{Site, Value};

// How long a tuple is.
const TUPLE_LENGTH: usize = 32;

// ---- operands

// A value as an operand: its tag, three zeros, and four value bytes.
fn operand_of(v: Value) -> [u8; 8]
    ensures { result ≡ operand_bytes v }
{
    match v {
        Value::Int(n) => {
            let [a, b, c, d] = n.to_le_bytes();
            [1, 0, 0, 0, a, b, c, d]
        }
        Value::Text(t) => {
            let [a, b, c, d] = t.to_be_bytes();
            [2, 0, 0, 0, a, b, c, d]
        }
        Value::Loc(l) => [3, 0, 0, 0, l.0, 0, 0, 0],
    }
}

// A row as a tuple of four operands, those that are missing zero.
pub fn tuple_bytes(row: Row, columns: usize) -> [u8; TUPLE_LENGTH]
    requires { columns ≤ 4 }
    ensures { result ≡ tuple_bytes (values_of columns row) }
{
    let mut out = [0; TUPLE_LENGTH];
    for i in 0..columns {
        out[i * OPERAND..i * OPERAND + OPERAND].copy_from_slice(&operand_of(row.cells[i]));
    }
    out
}

// ---- records

// The first eight bytes of a record: kind, site, two zeros, name.
pub fn start_bytes(kind: u8, site: Site, name: u32) -> [u8; 8]
    ensures { result ≡ start_bytes kind site name }
{
    let [a, b, c, d] = name.to_be_bytes();
    [kind, site.0, 0, 0, a, b, c, d]
}

// The kinds of four columns, 0 for those that are missing.
pub fn column_bytes(kinds: &[u8]) -> [u8; 4]
    ensures { result ≡ column_bytes kinds.now }
{
    array::from_fn(|i| kinds.get(i).copied().unwrap_or(0))
}

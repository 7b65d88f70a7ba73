// The records that files do not have, kinds 65 to 69, of 104 bytes each.
ghost use Rattle.std.specs.Prelude.{◌≡◌, ◌++◌, ◌≤◌, replicate};
ghost use Rattle.rows.specs.View.{values_of};
ghost use Rattle.call_rules.specs.Openings.{entry_alone};
ghost use Rattle.call_rules.specs.Moments.{start_of, values_record, relation_head, entry_record, thread_head};

use call_thread::{entry_kind, visit_bytes};
use nets::Frame;
use record_bytes::{KINDS, KINDS_END, LEFT, RECORD, TUPLE};
use rows::Row;
use step_thread::node_of;
use values::Site;
use write_fields::{column_bytes, tuple_bytes};

// Where the rows still to visit end.
const VISIT_END: usize = 24;

// A record that is zero behind its kind and two numbers.
fn started(kind: u8, a: u8, b: u8) -> [u8; RECORD]
    ensures { result ≡ start_of kind a b ++ replicate 96 0 }
{
    let mut out = [0; RECORD];
    out[..3].copy_from_slice(&[kind, a, b]);
    out
}

// A record with values where a row record has them.
pub fn values_record(kind: u8, number: u8, row: Row, columns: usize) -> [u8; RECORD]
    requires { columns ≤ 4 }
    ensures { result ≡ values_record kind number (values_of columns row) }
{
    let mut out = started(kind, number, 0);
    out[TUPLE..LEFT].copy_from_slice(&tuple_bytes(row, columns));
    out
}

// A table variable, without its rows.
pub fn relation_head(number: u8, bound: u8, kinds: &[u8]) -> [u8; RECORD]
    ensures { result ≡ relation_head number bound kinds.now }
{
    let mut out = started(67, number, bound);
    out[KINDS..KINDS_END].copy_from_slice(&column_bytes(kinds));
    out
}

// A stack entry.
pub fn entry_record(f: Frame) -> [u8; RECORD]
    ensures { result ≡ entry_record (entry_alone f) }
{
    let mut out = started(69, entry_kind(f), node_of(f));
    out[KINDS..VISIT_END].copy_from_slice(&visit_bytes(f));
    out
}

// A thread, without what it holds.
pub fn thread_head(site: Site, depth: usize) -> [u8; RECORD]
    requires { depth ≤ 8 }
    ensures { result ≡ thread_head site.0 depth }
{
    started(65, site.0, depth as u8)
}

// A moment of a run as records: all tables and rows, and all that threads hold. Tables and nodes are copied out of the net before some of them are lent: where a part of the net itself is lent, the compiled code keeps a copy of the whole net.
#![tactic(auto)]

ghost use Rattle.std.specs.Prelude.{◌≡◌, ◌≤◌, T, length};
ghost use Rattle.nets.specs.Sound.{sound};
ghost use Rattle.nets.specs.View.{view};
ghost use Rattle.call_rules.specs.Moments.{moment_head, moment_put};

use crate::threads::{count_all, put_all};
use nets::Net;
use record_bytes::{KINDS, RECORD};
use write::tables::{tables_size, write_tables};

pub mod threads;

// How many tables, threads and records there are.
fn moment_head(tables: u8, threads: u8, records: usize) -> [u8; RECORD]
    requires { records ≤ 3809 }
    ensures { result ≡ moment_head tables threads records }
{
    let mut out = [0; RECORD];
    let [a, b, c, d] = (records as u32).to_le_bytes();
    out[..KINDS].copy_from_slice(&[64, tables, threads, 0, a, b, c, d]);
    out
}

// How long a moment is.
pub fn moment_size(net: Net) -> usize
    requires { T (sound (view net)) }
    ensures { (result ≡ length (moment_put (view net))) × (result ≤ 396136) }
{
    let all_tables = net.tables;
    RECORD + tables_size(&all_tables[..net.tablecount]) + count_all(net) * RECORD
}

pub fn put_moment(out: &mut [u8], net: Net)
    requires { T (sound (view net)) × (length out.old ≡ length (moment_put (view net))) }
    ensures { out.new ≡ moment_put (view net) }
{
    let all_tables = net.tables;
    let tables = &all_tables[..net.tablecount];
    let middle = RECORD + tables_size(tables);
    let end = moment_size(net);
    out[0..RECORD].copy_from_slice(&moment_head(
        net.tablecount as u8,
        net.threadcount as u8,
        end / RECORD,
    ));
    let _ = write_tables(&mut out[RECORD..middle], tables);
    put_all(&mut out[middle..end], net);
}

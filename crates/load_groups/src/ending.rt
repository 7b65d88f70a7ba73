// What is left after the last group: checks 3, 4 and 5.
ghost use Rattle.std.specs.Prelude.{◌≡◌, cond, MatchResult};
ghost use Rattle.record_bytes.specs.Decoding.{record_in};
ghost use Rattle.load_walk.specs.Walking.{Going, Ends, Stops, left_number};

use files::Fault;
use load_walk::Reach;
use load_walk::walking::record_at;
use record_bytes::RECORD;
use record_forms::{alias_form, group_of, pick_form, start_form, table_form};
use record_nodes::nodes::node_read;
use record_nodes::tuples::row_read;

// Check 4, or 5 where it passes.
fn formed(ok: bool) -> u8
    ensures { result ≡ cond ok 5 4 }
{
    if ok { 5 } else { 4 }
}

// The check that refuses a record that no loop took: 3 or 4, or else 5, since its group comes before that of an earlier record. It judges bytes, so it is no `From`.
fn left_number(r: &[u8; RECORD]) -> u8
    ensures { result ≡ left_number (record_in r.now) }
{
    match group_of(r[0]) {
        1 => formed(alias_form(r)),
        2 => formed(table_form(r)),
        3 => formed(row_read(r).is_some()),
        4 => formed(node_read(r).is_some()),
        5 => formed(start_form(r)),
        6 => formed(pick_form(r)),
        _ => 3,
    }
}

// The end of the file, or the fault of the record that no loop took.
pub fn reach_end(file: &[u8], from: Reach) -> Result<(), Fault>
    requires { Going file.now 7 from }
    ensures { MatchResult result (λ done. Ends file.now from) (λ fault. Stops file.now from fault (λ l. l)) }
{
    let place = from.place;
    if file.len() <= place * RECORD {
        return Ok(());
    }
    Err(Fault {
        number: left_number(record_at(file, place)),
        place,
    })
}

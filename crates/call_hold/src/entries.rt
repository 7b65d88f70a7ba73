// Entries of a stack as records, each with the bindings that it holds.
ghost use Rattle.std.specs.Prelude.{◌≡◌, ◌∷◌, suc, ◌*◌, ◌≤◌, length};
ghost use Rattle.value_bytes.specs.Bytes.{end_to_end};
ghost use Rattle.call_rules.specs.Moments.{entry_record};
ghost use Rattle.call_rules.specs.Openings.{entry_alone};
ghost use Rattle.call_hold.specs.Holdings.{RelationsShaped, held_by, pair_held, held_given, HeldShaped};

use crate::bindings::{bindings_records, put_bindings};
use crate::records::entry_record;
use nets::{Entry, Frame, Saved, TableVariable};
use record_bytes::RECORD;

// What an entry holds, as `all_holds` has it for its node: a node to run holds nothing, even that of a loop.
pub fn held_by(f: Frame, holds: [u8; 256]) -> u8
    ensures { result ≡ held_by holds f.entry }
{
    match f.entry {
        Entry::Run(_) => 0,
        Entry::Loop(node) => holds[node as usize],
    }
}

// The table variables that an entry holds: the one that the loop reads is the thread's own, the other was saved.
fn pair_held(held: u8, relations: [TableVariable; 2], other: TableVariable) -> [TableVariable; 2]
    ensures { result ≡ pair_held held relations other }
{
    if held == 1 {
        return [relations[0], other];
    }
    [other, relations[1]]
}

// How many records an entry has: its own, and those of what it holds.
pub fn entry_records(held: u8, relations: [TableVariable; 2], saved: Saved) -> usize
    requires { RelationsShaped relations × HeldShaped held saved }
    ensures { (result ≡ suc (length (held_given held relations saved))) × (result ≤ 51) }
{
    if held == 0 {
        return 1;
    }
    1 + bindings_records(pair_held(held, relations, saved.other))
}

pub fn put_with_held(
    out: &mut [u8],
    f: Frame,
    held: u8,
    relations: [TableVariable; 2],
    saved: Saved,
)
    requires { RelationsShaped relations × HeldShaped held saved × (length out.old ≡ suc (length (held_given held relations saved)) * 104) }
    ensures { out.new ≡ end_to_end (entry_record (entry_alone f) ∷ held_given held relations saved) }
{
    if held == 0 {
        out.copy_from_slice(&entry_record(f));
        return;
    }
    let pair = pair_held(held, relations, saved.other);
    let end = RECORD + bindings_records(pair) * RECORD;
    out[0..RECORD].copy_from_slice(&entry_record(f));
    put_bindings(&mut out[RECORD..end], saved.vars, pair);
}

// The record at a place, the group of the next record, and checks 4, 6 and 8 in one; rows have check 7 in place of 6, and a function of their own.
ghost use Rattle.std.specs.Prelude.{◌≡◌, [], ◌∷◌, ◌+◌, ◌*◌, ◌≤◌, length};
ghost use Rattle.std.specs.Result.{result_err};
ghost use Rattle.nets.specs.Steps.{check};
ghost use Rattle.load_walk.specs.Walking.{record_at, group_next, first_fault};

use crate::Reach;
use files::Fault;
use record_bytes::{RECORD, field};
use record_forms::group_of;

// The record at a place, as its own part of the file.
pub fn record_at(file: &[u8], place: usize) -> &[u8; RECORD]
    requires { place * 104 + 104 ≤ length file.now }
    ensures { result.now ≡ record_at file.now place }
{
    field(file, place * RECORD)
}

// The group of the next record; 0 for an unknown kind, and past the last record. A group has as many records as say so, hence loops that go on `while` this is theirs.
#[tactic(auto, unfolding(crate::specs::Walking::group_next))]
pub fn next_group(file: &[u8], r: Reach) -> u8
    requires { r.place ≤ 256 }
    ensures { result ≡ group_next file.now r }
{
    match file.get(r.place * RECORD) {
        Some(kind) => group_of(*kind),
        None => 0,
    }
}

// Checks 4, 6 and 8 of the record at a place: the first that fails.
pub fn first_fault(place: usize, form: bool, new: bool, room: bool) -> Result<(), Fault>
    ensures { result_err result ≡ first_fault place (check 4 form ∷ check 6 new ∷ check 8 room ∷ []) }
{
    if !form {
        return Err(Fault { number: 4, place });
    }
    if !new {
        return Err(Fault { number: 6, place });
    }
    if !room {
        return Err(Fault { number: 8, place });
    }
    Ok(())
}

// The walk over the records of one group, whatever they give: the group's records stand together, and each is judged after those before it.
ghost use Rattle.std.specs.Prelude.{ℕ, ◌≡◌, ◌≤◌, ◌<◌, List, [], ◌∷◌, ◌++◌, length, MatchResult};
ghost use Rattle.files.specs.Loading.{Progress};
ghost use Rattle.record_bytes.specs.Bytes.{at};
ghost use Rattle.record_bytes.specs.RecordKinds.{group_at};
ghost use Rattle.load_walk.specs.Walking.{Takes, Refuses, Gives, Stops, Going};

use files::Fault;
use load_walk::walking::{next_group, record_at};
use load_walk::{Reach, Read};
use record_bytes::RECORD;

// What a record of a group gives.
pub trait Item: Copy {
    // The group's number, in the order in which groups come.
    const GROUP: u8;

    ghost GROUP: { ℕ };

    // How many there may be.
    ghost ROOM: { ℕ };

    // What was read, with these in their place.
    ghost put: { List Self → Progress → Progress };

    // What holds of those that passed their checks.
    ghost Kept: { List Self → Type 0 };

    // What the record at a place gives after those before it, or its fault.
    fn read(place: usize, r: &[u8; RECORD], before: &[Self]) -> Result<Self, Fault>
        requires { (group_at (at r.now 0) ≡ GROUP) × Kept before.now × (length before.now < 256) }
        ensures { MatchResult result
            (λ item. Takes GROUP r.now (put before.now) (put (before.now ++ (item ∷ []))) × Kept (before.now ++ (item ∷ [])) × (length before.now < ROOM))
            (λ fault. Refuses GROUP place r.now (put before.now) fault) };
}

// The records of a group, from where reading has come to.
pub fn walk<T: Item, const N: usize>(
    file: &[u8],
    from: Reach,
    blank: T,
) -> Result<Read<T, N>, Fault>
    requires { Going file.now T.GROUP from × (1 ≤ T.GROUP) × T.Kept [] × (T.ROOM ≤ N) }
    ensures { MatchResult result
        (λ read. Gives N file.now T.GROUP from T.put T.Kept read)
        (λ fault. Stops file.now from fault (T.put [])) }
{
    let mut items = [blank; N];
    let mut count: usize = 0;
    let mut at = from;
    while next_group(file, at) == T::GROUP {
        let r = record_at(file, at.place);
        items[count] = T::read(at.place, r, &items[..count])?;
        count += 1;
        at = Reach {
            place: at.place + 1,
            group: T::GROUP,
        };
    }
    Ok(Read {
        items,
        count,
        reach: at,
    })
}

// Pick records, group 6: check 4.
ghost use Rattle.std.specs.Prelude.{[], MatchResult};
ghost use Rattle.files.specs.Engine.{first_picks};
ghost use Rattle.load_walk.specs.Walking.{put_picks, LeadsPast, Stops, Going};

use crate::walk::{Item, walk};
use files::Fault;
use load_walk::walking::first_fault;
use load_walk::{Reach, Read};
use nets::Pick;
use record_bytes::RECORD;
use record_forms::{pick_form, pick_in};

impl Item for Pick {
    const GROUP: u8 = 6;

    ghost GROUP = { 6 };

    ghost ROOM = { 256 };

    ghost put = { put_picks };

    ghost Kept = { λ ps. Unit {0} };

    fn read(place: usize, r: &[u8; RECORD], _before: &[Pick]) -> Result<Pick, Fault> {
        first_fault(place, pick_form(r), true, true)?;
        Ok(pick_in(r))
    }
}

pub fn picks_from(file: &[u8], from: Reach) -> Result<Read<Pick, 256>, Fault>
    requires { Going file.now 6 from }
    ensures { MatchResult result
        (λ read. LeadsPast file.now 6 from read.reach (put_picks []) (put_picks (first_picks read.count read.items)))
        (λ fault. Stops file.now from fault (put_picks [])) }
{
    walk(file, from, Pick { thread: 0, row: 0 })
}

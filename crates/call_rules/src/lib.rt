// What calls pass on between their parts: how many bytes were put, or the refusal, and the number and place that a caller is told.
#![tactic(auto)]

ghost use Rattle.std.specs.Prelude.{◌≡◌};
ghost use Rattle.call_rules.specs.Openings.{number_of, place_of, number_told, place_told};

use files::Fault;

// Why a call puts nothing.
#[derive(Clone, Copy, PartialEq, Eq)]
pub enum Refused {
    // The file's first fault.
    File(Fault),
    // An odd length of picks, which is no fault of a file.
    OddPicks,
    // The length that is needed.
    Short(usize),
    // Of a page: why there is none, and what it needs.
    Unsound,
    NoTable,
    ShortPage(usize),
}

// How many bytes were put, or why none were.
pub type Reply = Result<usize, Refused>;

impl From<Fault> for Refused {
    ghost use Rattle.call_rules.specs.declared.Refused.TheVariants.{File};

    ghost from_gives = { λ fault refused. refused ≡ File fault };

    fn from(fault: Fault) -> Refused {
        Refused::File(fault)
    }
}

// Numbers that only calls have begin at 100, so that they never meet a number of the papers.
const ODD_PICKS_NUMBER: u8 = 100;

fn number_of(why: Refused) -> u8
    ensures { result ≡ number_of why }
{
    match why {
        Refused::File(fault) => fault.number,
        Refused::OddPicks => ODD_PICKS_NUMBER,
        Refused::Short(_) => 21,
        Refused::Unsound => 10,
        Refused::NoTable => 14,
        Refused::ShortPage(_) => 22,
    }
}

// A file's record, or the length that is needed.
fn place_of(why: Refused) -> usize
    ensures { result ≡ place_of why }
{
    match why {
        Refused::File(fault) => fault.place,
        Refused::Short(length) | Refused::ShortPage(length) => length,
        Refused::OddPicks | Refused::Unsound | Refused::NoTable => 0,
    }
}

// What a caller is told: 0 and how many bytes were put, or a refusal's number and its place.
pub fn tell(reply: Reply, place: &mut usize) -> u8
    ensures { (result ≡ number_told reply) × (place.new ≡ place_told reply) }
{
    match reply {
        Ok(length) => {
            *place = length;
            0
        }
        Err(why) => {
            *place = place_of(why);
            number_of(why)
        }
    }
}

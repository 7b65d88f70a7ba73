// What a refusal says.
ghost use Rattle.std.specs.Prelude.{◌≡◌, ◌<◌};
ghost use Rattle.nets.specs.Answers.{number_of};

use crate::Refusal;

// The number of the check that failed. A function and no From, since its name says at each call which number is meant.
pub fn number_of(why: Refusal) -> usize
    ensures { (result ≡ number_of why) × (result < 21) }
{
    match why {
        Refusal::Unsound => 10,
        Refusal::NoThread => 11,
        Refusal::Unbound => 12,
        Refusal::NoSite => 13,
        Refusal::NoTable => 14,
        Refusal::TableThere => 15,
        Refusal::Misfit => 16,
        Refusal::Held => 17,
        Refusal::NoResult => 18,
        Refusal::NotReady => 19,
        Refusal::Full => 20,
    }
}

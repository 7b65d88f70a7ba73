// Sums of counts.
#![tactic(auto)]

ghost use Rattle.std.specs.Prelude.{◌≡◌, ◌+◌, ◌<◌, ◌≤◌, ◌^◌};
ghost use Rattle.value_totals.specs.Totals.{total_of};

// A sum in two halves: no list of picks makes it wrap.
#[derive(Clone, Copy)]
pub struct Total {
    pub high: u64,
    pub low: u64,
}

pub fn zero() -> Total
    ensures { result ≡ record { high = 0; low = 0 } }
{
    Total { high: 0, low: 0 }
}

// The low half passes what it has no room for on to the high one.
pub fn add_count(t: Total, n: usize) -> Total
    requires { t.high < 2 ^ 63 }
    ensures { (total_of result ≡ total_of t + n) × (result.high ≤ t.high + 1) }
{
    let (low, over) = t.low.overflowing_add(n as u64);
    Total {
        high: t.high + u64::from(over),
        low,
    }
}

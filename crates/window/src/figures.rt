// Sum, least and largest of the Ints in a window.
ghost use Rattle.std.specs.Prelude.{◌≡◌, ◌≤◌, length};
ghost use Rattle.window_rules.specs.Windows.{figures_of};
ghost use Rattle.window.specs.WindowCalls.{figures_told};

#[derive(Clone, Copy, PartialEq, Eq)]
pub struct Figures {
    pub sum: i64,
    pub least: i32,
    pub largest: i32,
}

// Sixteen Ints never leave 64 bits.
pub fn figures_of(ints: &[i32]) -> Figures
    requires { (1 ≤ length ints.now) × (length ints.now ≤ 16) }
    ensures { figures_told result ≡ figures_of ints.now }
{
    let mut sum = 0;
    let mut least = ints[0];
    let mut largest = ints[0];
    for &k in ints {
        sum += i64::from(k);
        least = least.min(k);
        largest = k.max(largest);
    }
    Figures {
        sum,
        least,
        largest,
    }
}

// A moving window over a stream of row records: the state is handed in and comes back by value, so a stream may be of any length.
#![tactic(auto)]

ghost use Rattle.std.specs.Prelude.{◌≡◌, ◌≤◌, Some};
ghost use Rattle.window_rules.specs.Windows.{width_ok, window_ok, begin_number, slid, taken_int};
ghost use Rattle.window.specs.WindowCalls.{window_of, taken_of, beginning_number, refusal_number, BeginIs, TakeIs};

use crate::figures::{Figures, figures_of};
use crate::readings::reading_in;

pub mod figures;
pub mod readings;

// A window of `width` rows over one column, and the first `count` of `ints` are the Ints of that column in its rows, the oldest first.
#[derive(Clone, Copy)]
pub struct Window {
    pub width: usize,
    pub column: usize,
    pub count: usize,
    // Room for the widest window, since a state is of fixed memory.
    pub ints: [i32; 16],
}

// A window of no rows or of more than sixteen: 23.
#[derive(Clone, Copy, PartialEq, Eq)]
pub struct BadWidth;

// A refused beginning has its window too: every record is refused with it.
#[derive(Clone, Copy)]
pub struct Begun {
    pub beginning: Result<(), BadWidth>,
    pub window: Window,
}

// Why a record is not taken.
#[derive(Clone, Copy, PartialEq, Eq)]
pub enum Refused {
    BadWindow,
    BadRecord,
}

impl Refused {
    pub fn number(self) -> u8
        ensures { result ≡ refusal_number self }
    {
        match self {
            Refused::BadWindow => 23,
            Refused::BadRecord => 24,
        }
    }
}

#[derive(Clone, Copy)]
pub struct Taken {
    pub answer: Result<Figures, Refused>,
    pub window: Window,
}

// ---- a beginning

pub fn width_ok(width: usize) -> bool
    ensures { result ≡ width_ok width }
{
    (1 <= width) & (width <= 16)
}

fn beginning_of(width: usize) -> Result<(), BadWidth>
    ensures { beginning_number result ≡ begin_number width }
{
    if width_ok(width) {
        Ok(())
    } else {
        Err(BadWidth)
    }
}

pub fn begin(width: usize, column: usize) -> Begun
    ensures { BeginIs width column result }
{
    Begun {
        beginning: beginning_of(width),
        window: Window {
            width,
            column,
            count: 0,
            ints: [0; 16],
        },
    }
}

// ---- a record taken

// One Int more; from a full window the oldest goes.
fn with_int(window: Window, k: i32) -> Window
    requires { (1 ≤ window.width) × (window.width ≤ 16) × (window.count ≤ window.width) }
    ensures { (window_of result ≡ slid (window_of window) k) × (1 ≤ result.count) × (result.count ≤ 16) }
{
    let mut next = window;
    let count = window.count;
    if count < window.width {
        next.ints[count] = k;
        next.count = count + 1;
    } else {
        next.ints.copy_within(1..count, 0);
        next.ints[count - 1] = k;
    }
    next
}

fn taken_int(window: Window, k: i32) -> Taken
    requires { (1 ≤ window.width) × (window.width ≤ 16) × (window.count ≤ window.width) }
    ensures { taken_of result ≡ taken_int (window_of window) (Some k) }
{
    let next = with_int(window, k);
    Taken {
        answer: Ok(figures_of(&next.ints[..next.count])),
        window: next,
    }
}

// Another program may hand in any state.
fn window_ok(window: Window) -> bool
    ensures { result ≡ window_ok (window_of window) }
{
    width_ok(window.width) && window.count <= window.width
}

// A refused record gives the very window back.
pub fn take(window: Window, record: &[u8]) -> Taken
    ensures { TakeIs window «record».now result }
{
    if !window_ok(window) {
        return Taken {
            answer: Err(Refused::BadWindow),
            window,
        };
    }
    match reading_in(record, window.column) {
        Some(k) => taken_int(window, k),
        None => Taken {
            answer: Err(Refused::BadRecord),
            window,
        },
    }
}

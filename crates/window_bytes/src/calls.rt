// The calls: a beginning, and a record taken. A refusal leaves every byte of the state.
ghost use Rattle.std.specs.Prelude.{◌≡◌};
ghost use Rattle.window_rules.specs.Windows.{begin_number};
ghost use Rattle.window_rules.specs.WindowBytes.{bytes_begun, answer_for, bytes_after};
ghost use Rattle.window.specs.WindowCalls.{beginning_number, answer_of};

use crate::STATE;
use crate::put::put_window;
use crate::read::{is_state, window_in};
use window::figures::Figures;
use window::{BadWidth, Refused, begin, take};

pub fn window_begin(width: usize, column: usize, state: &mut [u8; STATE]) -> Result<(), BadWidth>
    ensures { (beginning_number result ≡ begin_number width) × (state.new ≡ bytes_begun width column state.old) }
{
    let begun = begin(width, column);
    begun.beginning?;
    put_window(state, begun.window);
    Ok(())
}

pub fn window_take(state: &mut [u8; STATE], record: &[u8]) -> Result<Figures, Refused>
    ensures { (answer_of result ≡ answer_for state.old «record».now) × (state.new ≡ bytes_after state.old «record».now) }
{
    if !is_state(state) {
        return Err(Refused::BadWindow);
    }
    let taken = take(window_in(state), record);
    let figures = taken.answer?;
    put_window(state, taken.window);
    Ok(figures)
}

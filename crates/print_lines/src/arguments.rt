// The words that a program is called with.
use std::env::{Env, FillError};

// Whether there is a word at this place; at 0 stands the program's own name.
pub fn has_argument(rt: &impl Env, i: usize) -> bool {
    !matches!(rt.arg(i, &mut [0u8; 1]), Err(FillError::NotPresent))
}

// The arguments as numbers.
use std::env::Env;

// A number above this one is told as it: no width and no column is so large.
const MOST: usize = 1000;

// One digit or more, and nothing else. `parse` takes a sign too, and refuses numbers that 64 bits do not hold.
fn number_in(text: &[u8]) -> Option<usize> {
    if text.is_empty() {
        return None;
    }
    let mut n: usize = 0;
    for byte in text {
        if !byte.is_ascii_digit() {
            return None;
        }
        n = (n * 10 + usize::from(*byte - b'0')).min(MOST);
    }
    Some(n)
}

// An argument that is missing or longer than a path can be is no number.
pub fn argument(rt: &impl Env, i: usize) -> Option<usize> {
    let mut text = [0u8; 4096];
    let length = rt.arg(i, &mut text).ok()?;
    number_in(&text[..length])
}

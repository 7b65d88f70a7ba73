// Texts, compared byte by byte with a..z read as A..Z.
ghost use Rattle.std.specs.Prelude.{◌≡◌, Some};
ghost use Rattle.values.specs.Values.{upper, text_order};
ghost use Rattle.values.specs.Folding.{folded_text};

use std::cmp::Ordering;

fn upper_byte(b: u32) -> u32
    ensures { result ≡ upper b }
{
    match b {
        97..=122 => b - 32,
        _ => b,
    }
}

// The four bytes as capitals, again as one number.
fn folded(t: u32) -> u32
    ensures { result ≡ folded_text t }
{
    let a = upper_byte(t / 16777216 % 256);
    let b = upper_byte(t / 65536 % 256);
    let c = upper_byte(t / 256 % 256);
    let d = upper_byte(t % 256);
    ((a * 256 + b) * 256 + c) * 256 + d
}

// Folded texts are ordered as numbers, since the first byte is the highest. No `Ord`: a text is a number, which has its own order.
pub fn text_order(t: u32, u: u32) -> Ordering
    ensures { Some result ≡ text_order t u }
{
    if t == u {
        return Ordering::Equal;
    }
    folded(t).cmp(&folded(u))
}

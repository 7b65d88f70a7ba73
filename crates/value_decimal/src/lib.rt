// Numbers in decimal, put at the end of a lent part of a buffer, with blanks before them.
#![tactic(auto)]

ghost use Rattle.std.specs.Prelude.{◌≡◌, ◌++◌, ◌+◌, ◌≤◌, length, take};
ghost use Rattle.value_decimal.specs.Decimals.{decimal, number, signed, blanks};

// Room for every number of 64 bits: twenty digits and a minus.
pub const PLACES: usize = 21;

// Fills the part with blanks.
pub fn put_blanks(out: &mut [u8])
    ensures { out.new ≡ blanks (length out.old) }
{
    out.fill(b' ');
}

// Puts the last digit at the end and each further one a place to the left; gives the place of the first digit.
fn put_digits(out: &mut [u8], n: u64) -> usize
    requires { length (decimal n) ≤ length out.old }
    ensures { (out.new ≡ take result out.old ++ decimal n) × (result + length (decimal n) ≡ length out.old) }
{
    let mut at = out.len();
    let mut rest = n;
    // The number ends the loop and not the part: a `for` over the places would have an end that is never reached.
    while rest > 9 {
        at -= 1;
        out[at] = 48 + (rest % 10) as u8;
        rest /= 10;
    }
    at -= 1;
    out[at] = 48 + rest as u8;
    at
}

// Puts the number at the end of the part and blanks before it; gives how many blanks.
// Written out, since nothing in std puts digits at the end of a part. The sign stands beside the distance from zero: no integer of 64 bits holds each `u64` with and without a minus.
pub fn put_number(out: &mut [u8], negative: bool, n: u64) -> usize
    requires { length (number negative n) ≤ length out.old }
    ensures { (out.new ≡ blanks result ++ number negative n) × (result + length (number negative n) ≡ length out.old) }
{
    put_blanks(out);
    let first = put_digits(out, n);
    if negative {
        out[first - 1] = b'-';
        return first - 1;
    }
    first
}

// Puts a signed number at the end of the part and blanks before it; gives how many blanks.
pub fn put_signed(out: &mut [u8], z: i64) -> usize
    requires { length (signed z) ≤ length out.old }
    ensures { (out.new ≡ blanks result ++ signed z) × (result + length (signed z) ≡ length out.old) }
{
    put_number(out, z < 0, z.unsigned_abs())
}

// The lines of the input.
ghost use Rattle.std.specs.Prelude.{◌≤◌};

use crate::trying::try_net;
use std::io;

// A hexadecimal digit, of small letters.
fn digit(b: u8) -> u8
    ensures { result ≤ 15 }
{
    match b {
        b'0'..=b'9' => b - b'0',
        b'a'..=b'f' => b - b'a' + 10,
        _ => 0,
    }
}

// 48 digits.
fn bytes_of(digits: &[u8]) -> [u8; 24] {
    let mut bytes = [0u8; 24];
    for (byte, pair) in bytes.iter_mut().zip(digits.chunks_exact(2)) {
        *byte = digit(pair[0]) * 16 + digit(pair[1]);
    }
    bytes
}

pub fn try_lines(rt: &impl Print, input: &[u8]) -> io::Result<()> {
    for line in input.split(|b| *b == b'\n') {
        if let Some((digits, name)) = line.split_at_checked(49) {
            try_net(rt, name, bytes_of(digits))?;
        }
    }
    Ok(())
}

// Numbers in decimal, with the digits that pages have.
use std::io;
use std::io::Write;
use value_decimal::{PLACES, put_number, put_signed};

pub fn put_decimal(out: &mut impl Write, n: u64) -> io::Result<()> {
    let mut text = [0u8; PLACES];
    let start = put_number(&mut text, false, n);
    out.write_all(&text[start..])
}

pub fn put_int(out: &mut impl Write, z: i64) -> io::Result<()> {
    let mut text = [0u8; PLACES];
    let start = put_signed(&mut text, z);
    out.write_all(&text[start..])
}

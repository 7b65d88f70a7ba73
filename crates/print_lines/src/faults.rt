// What is told of a refused file.
use crate::buffer::Buffered;
use crate::endings::is_unread;
use crate::numbers::put_decimal;
use crate::text::reads_as_text;
use std::io;
use std::io::Write;

// The line goes out by one write.
fn print_fault(rt: &impl Print, number: u8, place: usize) -> io::Result<()> {
    let mut out = Buffered::new(rt);
    write!(out, "load ")?;
    put_decimal(&mut out, number as u64)?;
    write!(out, " at ")?;
    put_decimal(&mut out, place as u64)?;
    writeln!(out)?;
    out.flush()
}

// The line of the fault, or why it was not written. Of a text in place of records the line says little, so a hint goes to standard error.
pub fn print_refused(
    rt: &(impl Print + Eprint),
    file: &[u8],
    number: u8,
    place: usize,
) -> io::Result<()> {
    let written = print_fault(rt, number, place);
    if reads_as_text(file) && !is_unread(&written) {
        let _ = eprintln!(rt;
            "hint: this reads as text; netasm makes records of a text: netasm NET.nettext -o NET.net"
        );
    }
    written
}

// The line of a record.
use print_lines::numbers::{put_decimal, put_int};
use std::io;
use std::io::Write;
use window::Refused;
use window::figures::Figures;

fn put_figures(out: &mut impl Write, figures: Figures) -> io::Result<()> {
    put_int(out, figures.sum)?;
    write!(out, " ")?;
    put_int(out, figures.least as i64)?;
    write!(out, " ")?;
    put_int(out, figures.largest as i64)
}

// The blank before an answer is written with what follows it: a stream may have many refused records, and each write costs time.
fn put_answer(out: &mut impl Write, answer: Result<Figures, Refused>) -> io::Result<()> {
    match answer {
        Ok(figures) => {
            write!(out, " ")?;
            put_figures(out, figures)
        }
        Err(refused) => {
            write!(out, " no ")?;
            put_decimal(out, refused.number() as u64)
        }
    }
}

pub fn put_line(
    out: &mut impl Write,
    place: u64,
    answer: Result<Figures, Refused>,
) -> io::Result<()> {
    write!(out, "record ")?;
    put_decimal(out, place)?;
    put_answer(out, answer)?;
    writeln!(out)
}

// The lines of answers and tables.
use crate::cells::{put_rows, put_text};
use crate::numbers::put_decimal;
use nets::refusals::number_of;
use nets::{Answer, Done, Table};
use std::io;
use std::io::Write;
use step_bytes::answers::ANSWER;
use values::Site;

fn put_done(out: &mut impl Write, added: u64, taken: u64) -> io::Result<()> {
    write!(out, "done ")?;
    put_decimal(out, added)?;
    write!(out, " ")?;
    put_decimal(out, taken)
}

fn put_refusal(out: &mut impl Write, number: u64) -> io::Result<()> {
    write!(out, "no ")?;
    put_decimal(out, number)
}

pub fn put_answer(out: &mut impl Write, answer: Answer) -> io::Result<()> {
    match answer {
        Ok(Done { added, taken }) => put_done(out, added as u64, taken as u64),
        Err(why) => put_refusal(out, number_of(why) as u64),
    }
}

// An answer's three numbers, little endian: that of the refusal, 0 where there is none, since C programs read them so, and the rows added and taken.
fn put_answer_bytes(out: &mut impl Write, answer: &[u8; ANSWER]) -> io::Result<()> {
    let (numbers, _) = answer.as_chunks::<8>();
    match u64::from_le_bytes(numbers[0]) {
        0 => {
            let added = u64::from_le_bytes(numbers[1]);
            let taken = u64::from_le_bytes(numbers[2]);
            put_done(out, added, taken)
        }
        number => put_refusal(out, number),
    }
}

// The lines of picks, from their answers as bytes, of which each has 24.
pub fn put_picks(out: &mut impl Write, answers: &[u8]) -> io::Result<()> {
    for (i, answer) in answers.as_chunks::<ANSWER>().0.iter().enumerate() {
        write!(out, "pick ")?;
        put_decimal(out, i as u64)?;
        write!(out, " ")?;
        put_answer_bytes(out, answer)?;
        writeln!(out)?;
    }
    Ok(())
}

// The line of a table.
pub fn put_table_line(out: &mut impl Write, site: Site, name: u32, rows: usize) -> io::Result<()> {
    write!(out, "table ")?;
    put_decimal(out, site.0 as u64)?;
    write!(out, " ")?;
    put_text(out, name)?;
    write!(out, " ")?;
    put_decimal(out, rows as u64)?;
    writeln!(out)
}

// The line of each table, and those of its rows.
pub fn put_tables(out: &mut impl Write, tables: &[Table]) -> io::Result<()> {
    for t in tables {
        put_table_line(out, t.site, t.name, t.content.count)?;
        put_rows(out, &t.content)?;
    }
    Ok(())
}

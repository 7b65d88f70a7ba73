// Values and rows: an Int in decimal, a Text as it reads, a Loc as @ and its digit.
use crate::numbers::{put_decimal, put_int};
use rows::{Relation, Row};
use std::io;
use std::io::Write;
use values::Value;

// A value has no Display: the four bytes of a Text need not be characters.
pub fn put_text(out: &mut impl Write, t: u32) -> io::Result<()> {
    out.write_all(&t.to_be_bytes())
}

pub fn put_value(out: &mut impl Write, v: Value) -> io::Result<()> {
    match v {
        Value::Int(i) => put_int(out, i as i64),
        Value::Text(t) => put_text(out, t),
        Value::Loc(l) => {
            write!(out, "@")?;
            put_decimal(out, l.0 as u64)
        }
    }
}

// The line of a row: its first `columns` values.
fn put_row(out: &mut impl Write, row: &Row, columns: usize) -> io::Result<()> {
    write!(out, "row")?;
    for v in row.cells.iter().take(columns) {
        write!(out, " ")?;
        put_value(out, *v)?;
    }
    writeln!(out)
}

pub fn put_rows(out: &mut impl Write, r: &Relation) -> io::Result<()> {
    for row in r.rows.iter().take(r.count) {
        put_row(out, row, r.columns)?;
    }
    Ok(())
}

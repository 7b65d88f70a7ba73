// Contents of tables and table variables. Cells and rows past the counts hold no values.
use rows::{Relation, Row};
use values::{Locality, Value};

pub const CARD: u32 = 0x43415244;

pub const RIG1: u32 = 0x52494731;

pub const RIG2: u32 = 0x52494732;

fn row(a: Value, b: Value, c: Value, d: Value) -> Row {
    Row {
        cells: [a, b, c, d],
    }
}

// A row of two columns: the two cells past them hold no values.
fn pair(text: u32, number: i32) -> Row {
    row(
        Value::Text(text),
        Value::Int(number),
        Value::Text(0),
        Value::Loc(Locality(9)),
    )
}

fn no_row() -> Row {
    row(
        Value::Text(1),
        Value::Loc(Locality(8)),
        Value::Text(2),
        Value::Loc(Locality(200)),
    )
}

pub fn no_relation() -> Relation {
    Relation {
        columns: 7,
        kinds: [0, 4, 9, 255],
        rows: [no_row(); 16],
        count: 99,
    }
}

// Text and Int.
fn two_rows(first: Row, second: Row) -> Relation {
    let mut rows = [no_row(); 16];
    rows[0] = first;
    rows[1] = second;
    Relation {
        columns: 2,
        kinds: [2, 1, 0, 9],
        rows,
        count: 2,
    }
}

pub fn cards() -> Relation {
    two_rows(pair(RIG1, 36), pair(RIG2, -40))
}

// The same two rows in the other order.
pub fn turned() -> Relation {
    two_rows(pair(RIG2, -40), pair(RIG1, 36))
}

// A value of each kind.
pub fn logs() -> Relation {
    let mut rows = [no_row(); 16];
    rows[0] = row(
        Value::Int(7),
        Value::Text(RIG1),
        Value::Loc(Locality(7)),
        Value::Int(0),
    );
    Relation {
        columns: 4,
        kinds: [1, 2, 3, 1],
        rows,
        count: 1,
    }
}

fn sixteen_rows() -> Relation {
    Relation {
        columns: 2,
        kinds: [2, 1, 0, 9],
        rows: [pair(RIG1, 36); 16],
        count: 16,
    }
}

// ---- by bytes

// Rows with a value of the wrong kind, a text out of range, or a locality out of range; then that of `turned` with another number, with a letter in the other case, and with
// other values past its two columns.
fn first_row(which: u8) -> Row {
    let none = Value::Int(0);
    let one = Value::Int(1);
    let rig = Value::Text(RIG1);
    match which {
        1 => row(rig, rig, none, none),
        2 => row(Value::Text(0x5249471f), one, none, none),
        3 => row(none, rig, Value::Loc(Locality(8)), none),
        4 => row(one, one, none, none),
        5 => row(Value::Text(RIG1 + 0x80), one, none, none),
        6 => row(Value::Text(RIG2), Value::Int(-41), none, none),
        7 => row(Value::Text(RIG2 + 0x2000), Value::Int(-40), none, none),
        _ => row(Value::Text(RIG2), Value::Int(-40), none, none),
    }
}

fn relation_of(which: u8) -> Relation {
    match which {
        0 => cards(),
        1 => logs(),
        2 => sixteen_rows(),
        _ => turned(),
    }
}

// Whose rows, by byte 5, with another first row, by byte 6; then as many columns, rows, and kinds of columns as bytes 7, 8 and 12 to 15 say.
pub fn content_of(e: [u8; 24]) -> Relation {
    let mut next = relation_of(e[5]);
    next.columns = e[7] as usize;
    next.count = e[8] as usize;
    next.kinds = [e[12], e[13], e[14], e[15]];
    if e[6] == 0 {
        return next;
    }
    next.rows[0] = first_row(e[6]);
    next
}

// The kinds of values, and of the columns that they stand in.
ghost use Rattle.std.specs.Prelude.{◌≡◌};
ghost use Rattle.values.specs.Values.{kind_of};
ghost use Rattle.values.specs.Operands.{kind_in};

use crate::Value;

pub const INT: u8 = 1;

pub const TEXT: u8 = 2;

pub const LOC: u8 = 3;

pub fn kind_of(v: Value) -> u8
    ensures { result ≡ kind_of v }
{
    match v {
        Value::Int(_) => INT,
        Value::Text(_) => TEXT,
        Value::Loc(_) => LOC,
    }
}

// The kind of what is there; of nothing 0, which is no kind: the byte that an array of kinds holds there, as in a record.
pub fn kind_in(g: Option<Value>) -> u8
    ensures { result ≡ kind_in g }
{
    match g {
        None => 0,
        Some(v) => kind_of(v),
    }
}

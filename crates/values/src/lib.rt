// Values, operands and variables. All by value.
#![tactic(auto)]

pub mod kinds;

// A physical site, 0..7.
#[derive(Clone, Copy, PartialEq, Eq)]
pub struct Site(pub u8);

// A logical locality, 0..7; what it means depends on the site.
#[derive(Clone, Copy, PartialEq, Eq)]
pub struct Locality(pub u8);

// A Text is its four bytes as one number, the first byte highest.
#[derive(Clone, Copy, PartialEq, Eq)]
pub enum Value {
    Int(i32),
    Text(u32),
    Loc(Locality),
}

// The seven tags: none, three constants, variable, variable plus Int, formal.
#[derive(Clone, Copy, PartialEq, Eq)]
pub enum Operand {
    Absent,
    ConstInt(i32),
    ConstText(u32),
    ConstLoc(Locality),
    Var(u8),
    Plus(u8, i32),
    Formal(u8),
}

// What the sixteen variables hold; one that holds nothing is unbound.
pub type Vars = [Option<Value>; 16];

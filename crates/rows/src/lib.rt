// Rows and relations, templates and tuples, and what is prepared of them. All by value.
#![tactic(auto)]

ghost use Rattle.std.specs.Prelude.{◌≡◌, ◌<◌, ◌≤◌, get_or, Some, map, length};
ghost use Rattle.rows.specs.Fit.{of_kind};
ghost use Rattle.rows.specs.View.{values_of, columns_of, relation_of, operands_of, draft_of};

use values::kinds::kind_of;
use values::{Operand, Value};

// The first `columns` cells of its relation count.
#[derive(Clone, Copy, PartialEq, Eq)]
pub struct Row {
    pub cells: [Value; 4],
}

impl Row {
    // The values of a row with that many columns.
    pub fn values(&self, columns: usize) -> &[Value]
        requires { columns ≤ 4 }
        ensures { result.now ≡ values_of columns self.now }
    {
        &self.cells[..columns]
    }
}

// The inside of a table and of a table variable: column kinds (1 Int, 2 Text, 3 Loc) and rows.
// No invariant says that the counts are within the arrays (`Shaped`): nets with any bytes are handed in from outside, and judged before they are trusted.
#[derive(Clone, Copy, PartialEq, Eq)]
pub struct Relation {
    pub columns: usize,
    pub kinds: [u8; 4],
    pub rows: [Row; 16],
    pub count: usize,
}

impl Relation {
    // The kinds of the columns in use.
    pub fn column_kinds(&self) -> &[u8]
        requires { self.now.columns ≤ 4 }
        ensures { result.now ≡ columns_of self.now.columns self.now.kinds }
    {
        &self.kinds[..self.columns]
    }

    // The rows in use.
    #[tactic(auto, using(values::proofs::Firsts::firsts_taken))]
    pub fn used(&self) -> &[Row]
        requires { self.now.count ≤ 16 }
        ensures rows { map (values_of self.now.columns) result.now ≡ (relation_of self.now).rows }
        ensures count { length result.now ≡ self.now.count }
    {
        &self.rows[..self.count]
    }
}

// A template T or a tuple t: the first `count` fields. No invariant says that they are at most four (`Short`), for the same reason.
#[derive(Clone, Copy, PartialEq, Eq)]
pub struct Operands {
    pub fields: [Operand; 4],
    pub count: usize,
}

impl Operands {
    // The fields in use.
    pub fn used(&self) -> &[Operand]
        requires { self.now.count ≤ 4 }
        ensures { result.now ≡ operands_of self.now }
    {
        &self.fields[..self.count]
    }
}

// The predicates 0..4.
#[derive(Clone, Copy, PartialEq, Eq)]
pub enum Test {
    Always,
    Equal,
    Unequal,
    Less,
    AtMost,
}

// Which rows a step speaks of: those that match T and satisfy the predicate.
#[derive(Clone, Copy, PartialEq, Eq)]
pub struct Selector {
    pub template: Operands,
    pub test: Test,
    pub left: Operand,
    pub right: Operand,
}

// The aggregate functions 1..4, and none, as the byte of a record numbers them.
#[derive(Clone, Copy, PartialEq, Eq)]
pub enum Function {
    Unused,
    Count,
    Sum,
    Least,
    Largest,
}

// Where a variable's value comes from once T is known: the same for every row, or a column of the row. Neither is a failure, and what is the same may be nothing: no `Option` or `Result`.
#[derive(Clone, Copy, PartialEq, Eq)]
pub enum Origin {
    Fixed(Option<Value>),
    Column(u8),
}

// An operand prepared for one relation: its source alone, or plus an Int. Two kinds of terms, and neither stands for nothing.
#[derive(Clone, Copy, PartialEq, Eq)]
pub enum Term {
    Plain(Origin),
    Shifted(Origin, i32),
}

// A tuple t prepared for one relation.
#[derive(Clone, Copy, PartialEq, Eq)]
pub struct Terms {
    pub components: [Term; 4],
    pub count: usize,
}

// What a place of T takes. No `Option` of an `Option`, which would not show which of the two is the formal's.
#[derive(Clone, Copy, PartialEq, Eq)]
pub enum Want {
    Anything,
    Like(Option<Value>),
}

// What matching answers: whether the row matches, and how many of its fields were looked at. Both, since fields are looked at of either.
#[derive(Clone, Copy, PartialEq, Eq)]
pub struct Matched {
    pub matches: bool,
    pub looked: usize,
}

// A selector prepared for one relation: its operands read the thread's variables once, and not for each row. There are no wants where any row matches T.
#[derive(Clone, Copy, PartialEq, Eq)]
pub struct Plan {
    pub wants: Option<[Want; 4]>,
    pub test: Test,
    pub left: Term,
    pub right: Term,
}

// What a tuple gives: the first `count` slots.
#[derive(Clone, Copy, PartialEq, Eq)]
pub struct Draft {
    pub slots: [Option<Value>; 4],
    pub count: usize,
}

impl Draft {
    // The slots in use.
    pub fn given(&self) -> &[Option<Value>]
        requires { self.now.count ≤ 4 }
        ensures { result.now ≡ draft_of self.now }
    {
        &self.slots[..self.count]
    }
}

// A value fits a column of its own kind. All that judge fit ask this.
pub fn fits_column(kind: u8, v: Value) -> bool
    ensures { result ≡ of_kind kind (Some v) }
{
    kind == kind_of(v)
}

// The kind of a column, 0 past the last one.
pub fn kind_at(kinds: &[u8], i: usize) -> u8
    ensures { result ≡ get_or kinds.now i 0 }
{
    kinds.get(i).copied().unwrap_or(0)
}

// The row layer on the worked cases of the Klaim-DB paper (its Figure 3 and Examples 2 to 6): the table KLD of one branch, in texts of four bytes.
// Columns: shoe, colour, size, sales.
#![tactic(auto)]

ghost use Rattle.std.specs.Prelude.{◌≡◌, [], ◌∷◌, replicate, None};
ghost use Rattle.rows.specs.View.{Shaped, Short};
ghost use Rattle.cases.specs.Kld.{Kld};

use print_lines::buffer::Buffered;
use print_lines::cells::{put_rows, put_value};
use print_lines::numbers::put_decimal;
use row_aggregate::aggregate;
use row_change::appending::push;
use row_change::sifting::{count_marks, sifted};
use row_change::{Pass, Swept};
use row_columns::selected_kinds;
use row_match::match_row;
use row_plan::plan_of;
use row_sweep::swept;
use row_terms::terms_of;
use rows::{Function, Operands, Relation, Row, Selector, Test};
use std::io;
use std::io::Write;
use values::{Operand, Value, Vars};

const SHOE1: u32 = 0x30303120;

const SHOE2: u32 = 0x30303220;

const RED: u32 = 0x72656420;

const BLACK: u32 = 0x626c6163;

const GREEN: u32 = 0x67726565;

const BROWN: u32 = 0x62726f77;

const WHITE: u32 = 0x77686974; // whit

const CAPITAL_WHITE: u32 = 0x57686974; // Whit

// ---- rows and operands

fn shoe(id: u32, colour: u32, size: i32, sales: i32) -> Row {
    Row {
        cells: [
            Value::Text(id),
            Value::Text(colour),
            Value::Int(size),
            Value::Int(sales),
        ],
    }
}

// The seven rows of the figure.
fn kld() -> Relation
    ensures { Kld result × (result.count ≡ 7) }
{
    let blank = shoe(SHOE1, RED, 0, 0);
    let mut rows = [blank; 16];
    rows[0] = shoe(SHOE1, RED, 38, 2);
    rows[1] = shoe(SHOE1, RED, 37, 5);
    rows[2] = shoe(SHOE1, RED, 36, 1);
    rows[3] = shoe(SHOE1, BLACK, 38, 2);
    rows[4] = shoe(SHOE1, BLACK, 37, 2);
    rows[5] = shoe(SHOE2, GREEN, 38, 0);
    rows[6] = shoe(SHOE2, BROWN, 37, 3);
    Relation {
        columns: 4,
        kinds: [2, 2, 1, 1],
        rows,
        count: 7,
    }
}

// A template with no predicate.
fn unconditional(template: Operands) -> Selector
    ensures { result.template ≡ template }
{
    Selector {
        template,
        test: Test::Always,
        left: Operand::Absent,
        right: Operand::Absent,
    }
}

fn nothing_bound() -> Vars
    ensures { result ≡ replicate 16 None }
{
    [None; 16]
}

// ---- passes over a relation

fn none_given() -> Operands
    ensures { Short result }
{
    Operands {
        fields: [Operand::Absent; 4],
        count: 0,
    }
}

// Which rows s selects.
fn marked(r: Relation, s: &Selector) -> [bool; 16]
    requires { Shaped r × Short s.now.template }
{
    let vars = nothing_bound();
    let plan = plan_of(s, vars);
    let terms = terms_of(none_given(), s.template.used(), vars);
    swept(r, r.count, &plan, Pass::Mark, terms, r.column_kinds()).flags
}

// The rows after a pass that puts what t gives, in columns of these kinds, for those that s selects.
fn replaced(r: Relation, s: &Selector, t: Operands, pass: Pass, kinds: &[u8]) -> Swept
    requires { Shaped r × Short s.now.template × Short t }
{
    let vars = nothing_bound();
    let plan = plan_of(s, vars);
    let terms = terms_of(t, s.template.used(), vars);
    swept(r, r.count, &plan, pass, terms, kinds)
}

// ---- printing

fn put_got(out: &mut impl Write, g: Option<Value>) -> io::Result<()> {
    match g {
        None => writeln!(out, " none"),
        Some(v) => {
            write!(out, " ")?;
            put_value(out, v)?;
            writeln!(out)
        }
    }
}

// How many fields matching looks at, of each row of the table that T is held against, in its order.
fn put_looks(out: &mut impl Write, r: Relation, template: &[Operand]) -> io::Result<()>
    requires { Shaped r }
{
    write!(out, "fields looked at")?;
    for row in r.used() {
        let m = match_row(template, nothing_bound(), row.values(r.columns));
        write!(out, " ")?;
        put_decimal(out, m.looked as u64)?;
    }
    writeln!(out)
}

// ---- the cases

// Example 4: the shoes that are not red; their colour, size and sales.
fn not_red(out: &mut impl Write, r: Relation) -> io::Result<()>
    requires { Kld r }
{
    writeln!(out, "001, not red")?;
    let template = Operands {
        fields: [
            Operand::ConstText(SHOE1),
            Operand::Formal(1),
            Operand::Formal(2),
            Operand::Formal(3),
        ],
        count: 4,
    };
    let s = Selector {
        template,
        test: Test::Unequal,
        left: Operand::Var(1),
        right: Operand::ConstText(RED),
    };
    let t = Operands {
        fields: [
            Operand::Var(1),
            Operand::Var(2),
            Operand::Var(3),
            Operand::Absent,
        ],
        count: 3,
    };
    let kinds = selected_kinds(t, template.used(), &r.kinds, nothing_bound());
    let Swept { rows, flags } = replaced(r, &s, t, Pass::Select, &kinds[..3]);
    let made = Relation {
        columns: 3,
        kinds,
        rows,
        ..r
    };
    put_rows(out, &sifted(made, flags, true))?;
    put_looks(out, r, template.used())
}

// Example 6: the sum of the sales of shoe 001.
fn sales(out: &mut impl Write, r: Relation) -> io::Result<()>
    requires { Kld r }
{
    write!(out, "001, sales")?;
    let template = Operands {
        fields: [
            Operand::ConstText(SHOE1),
            Operand::Formal(1),
            Operand::Formal(2),
            Operand::Formal(3),
        ],
        count: 4,
    };
    let s = unconditional(template);
    let taken = sifted(r, marked(r, &s), true);
    put_got(out, aggregate(Function::Sum, 3, taken.used()))?;
    put_looks(out, r, template.used())
}

// Examples 2 and 3: white inserted, and deleted by "White".
fn white(out: &mut impl Write, r: Relation) -> io::Result<()>
    requires { Kld r × (r.count ≡ 7) }
{
    writeln!(out, "white inserted")?;
    let more = push(r, shoe(SHOE1, WHITE, 37, 0));
    put_rows(out, &more)?;
    let template = Operands {
        fields: [
            Operand::ConstText(SHOE1),
            Operand::ConstText(CAPITAL_WHITE),
            Operand::ConstInt(37),
            Operand::Formal(3),
        ],
        count: 4,
    };
    let s = unconditional(template);
    let flags = marked(more, &s);
    let kept = sifted(more, flags, false);
    let taken = sifted(more, flags, true);
    writeln!(out, "deleted by White")?;
    put_rows(out, &taken)?;
    put_looks(out, more, template.used())?;
    writeln!(out, "left")?;
    put_rows(out, &kept)
}

// Example 5: two more red ones of size 37 are sold.
fn sold(out: &mut impl Write, r: Relation) -> io::Result<()>
    requires { Kld r }
{
    let template = Operands {
        fields: [
            Operand::ConstText(SHOE1),
            Operand::ConstText(RED),
            Operand::ConstInt(37),
            Operand::Formal(3),
        ],
        count: 4,
    };
    let s = unconditional(template);
    let t = Operands {
        fields: [
            Operand::ConstText(SHOE1),
            Operand::ConstText(RED),
            Operand::ConstInt(37),
            Operand::Plus(3, 2),
        ],
        count: 4,
    };
    let Swept { rows, flags } = replaced(r, &s, t, Pass::Update, r.column_kinds());
    let next = Relation { rows, ..r };
    write!(out, "two red 37 sold, rows replaced ")?;
    put_decimal(out, count_marks(flags) as u64)?;
    writeln!(out)?;
    put_rows(out, &next)?;
    put_looks(out, r, template.used())
}

fn main(rt: HostRuntime) -> io::Result<()> {
    let mut out = Buffered::new(&rt);
    let r = kld();
    writeln!(out, "KLD")?;
    put_rows(&mut out, &r)?;
    not_red(&mut out, r)?;
    sales(&mut out, r)?;
    white(&mut out, r)?;
    sold(&mut out, r)?;
    out.flush()
}

// Operands prepared for one relation: where their values come from, and what they give for a row.
#![tactic(auto)]

ghost use Rattle.std.specs.Prelude.{◌≡◌, map, MatchOption};
ghost use Rattle.values.specs.Operands.{formal_of};
ghost use Rattle.rows.specs.View.{operands_of};
ghost use Rattle.rows.specs.Plans.{is_formal_of, formal_place, origin_of, term_of, got_at, origin_got, term_got, terms_in};

use rows::{Operands, Origin, Row, Term, Terms};
use value_eval::{held_in, plus};
use values::{Operand, Value, Vars};

// ---- sources and terms

pub fn is_formal_of(i: u8, op: Operand) -> bool
    ensures { result ≡ is_formal_of i (formal_of op) }
{
    match op {
        Operand::Formal(j) => i == j,
        _ => false,
    }
}

// The last place of T whose formal is variable i, as bindings go from first to last.
fn formal_place(i: u8, template: &[Operand]) -> Option<usize>
    ensures { MatchOption result (formal_place i 4 0 template.now ≡ 4) (λ at. at ≡ formal_place i 4 0 template.now) }
{
    template.iter().rposition(|op| is_formal_of(i, *op))
}

// A row has four cells, so a formal at a place past the fourth takes none.
pub fn variable_origin(i: u8, template: &[Operand], vars: Vars) -> Origin
    ensures { result ≡ origin_of vars template.now i }
{
    if 16 <= i {
        return Origin::Fixed(None);
    }
    match formal_place(i, template) {
        Some(at) if at < 4 => Origin::Column(at as u8),
        _ => Origin::Fixed(held_in(vars, i)),
    }
}

pub fn term_of(op: Operand, template: &[Operand], vars: Vars) -> Term
    ensures { result ≡ term_of vars template.now op }
{
    match op {
        Operand::ConstInt(i) => Term::Plain(Origin::Fixed(Some(Value::Int(i)))),
        Operand::ConstText(t) => Term::Plain(Origin::Fixed(Some(Value::Text(t)))),
        Operand::ConstLoc(l) => Term::Plain(Origin::Fixed(Some(Value::Loc(l)))),
        Operand::Var(i) => Term::Plain(variable_origin(i, template, vars)),
        Operand::Plus(i, k) => Term::Shifted(variable_origin(i, template, vars), k),
        _ => Term::Plain(Origin::Fixed(None)),
    }
}

fn got_at(row: &Row, i: u8) -> Option<Value>
    ensures { result ≡ got_at row.now.cells i }
{
    row.cells.get(i as usize).copied()
}

pub fn origin_got(s: Origin, row: &Row) -> Option<Value>
    ensures { result ≡ origin_got s row.now.cells }
{
    match s {
        Origin::Fixed(g) => g,
        Origin::Column(i) => got_at(row, i),
    }
}

pub fn term_got(t: Term, row: &Row) -> Option<Value>
    ensures { result ≡ term_got t row.now.cells }
{
    match t {
        Term::Plain(s) => origin_got(s, row),
        Term::Shifted(s, k) => plus(origin_got(s, row), k),
    }
}

// ---- tuples prepared for rows that match T

pub fn terms_of(t: Operands, template: &[Operand], vars: Vars) -> Terms
    ensures { (terms_in result ≡ map (term_of vars template.now) (operands_of t)) × (result.count ≡ t.count) }
{
    let components = t.fields.map(|op| term_of(op, template, vars));
    Terms {
        components,
        count: t.count,
    }
}

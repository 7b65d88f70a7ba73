// The columns that a select makes: a kind for each component of t.
#![tactic(auto)]

ghost use Rattle.std.specs.Prelude.{◌≡◌, ◌≤◌, length};
ghost use Rattle.values.specs.Operands.{bind};
ghost use Rattle.rows.specs.View.{columns_of, operands_of};
ghost use Rattle.rows.specs.Plans.{origin_kind};
ghost use Rattle.row_change.specs.Changes.{kinds_of, column_for, selected_columns};

use row_terms::variable_origin;
use rows::{Operands, Origin};
use values::kinds::{INT, LOC, TEXT, kind_in};
use values::{Operand, Vars};

fn origin_kind(s: Origin, kinds: &[u8; 4]) -> u8
    ensures { result ≡ origin_kind s kinds.now }
{
    match s {
        Origin::Fixed(g) => kind_in(g),
        Origin::Column(i) => kinds.get(i as usize).copied().unwrap_or(0),
    }
}

// The kind of a component of t; 0, which is no kind, of one that gives nothing: the byte that a kinds array holds there.
fn column_kind(op: Operand, template: &[Operand], kinds: &[u8; 4], vars: Vars) -> u8
    ensures { length template.now ≤ 4 → result ≡ column_for (bind template.now (columns_of (length template.now) kinds.now) (kinds_of vars)) op }
{
    match op {
        Operand::ConstInt(_) => INT,
        Operand::ConstText(_) => TEXT,
        Operand::ConstLoc(_) => LOC,
        Operand::Var(i) => origin_kind(variable_origin(i, template, vars), kinds),
        Operand::Plus(_, _) => INT,
        _ => 0,
    }
}

// One column for every component of t.
pub fn selected_kinds(t: Operands, template: &[Operand], kinds: &[u8; 4], vars: Vars) -> [u8; 4]
    ensures { length template.now ≤ 4 → columns_of t.count result ≡ selected_columns vars template.now (operands_of t) (columns_of (length template.now) kinds.now) }
{
    t.fields.map(|op| column_kind(op, template, kinds, vars))
}

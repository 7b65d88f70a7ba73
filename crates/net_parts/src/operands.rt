// Operands, templates, predicates and aggregate functions as the records allow them.
ghost use Rattle.std.specs.Prelude.{◌≡◌, ◌&&◌};
ghost use Rattle.std.specs.List.{list_all};
ghost use Rattle.values.specs.Operands.{formal_of, formals};
ghost use Rattle.rows.specs.declared.Test.TheVariants.{Always};
ghost use Rattle.rows.specs.View.{operands_of};
ghost use Rattle.nets.specs.Sound.{tagged, is_absent, locality_operand_ok, operands_ok, differ, template_ok, test_ok, is_always, function_ok};
ghost use Rattle.net_parts.specs.SoundParts.{formal_is, formal_new};

use crate::ranges::{is_text, locality_ok};
use rows::{Function, Operands, Selector, Test};
use values::Operand;

// ---- operands

pub fn is_absent(op: Operand) -> bool
    ensures { result ≡ is_absent op }
{
    op == Operand::Absent
}

// A tag of 1..hi, its fields in range.
pub fn tagged(hi: u8, op: Operand) -> bool
    ensures { result ≡ tagged hi op }
{
    match op {
        Operand::Absent => false,
        Operand::ConstInt(_i) => true,
        Operand::ConstText(t) => is_text(t),
        Operand::ConstLoc(l) => locality_ok(l),
        Operand::Var(i) => (4 <= hi) & (i < 16),
        Operand::Plus(i, _) => (5 <= hi) & (i < 16),
        Operand::Formal(i) => (6 <= hi) & (i < 16),
    }
}

pub fn locality_operand_ok(op: Operand) -> bool
    ensures { result ≡ locality_operand_ok op }
{
    match op {
        Operand::ConstLoc(l) => locality_ok(l),
        Operand::Var(i) => i < 16,
        _ => false,
    }
}

fn all_tagged(hi: u8, ops: &[Operand]) -> bool
    ensures { result ≡ list_all (tagged hi) ops.now }
{
    ops.iter().all(|op| tagged(hi, *op))
}

// The count is judged here, since it may come from outside.
pub fn operands_ok(hi: u8, t: Operands) -> bool
    ensures { result ≡ operands_ok hi (operands_of t) }
{
    let Some(used) = t.fields.get(..t.count) else {
        return false;
    };
    !used.is_empty() & all_tagged(hi, used)
}

// ---- templates

fn is_formal(i: u8, op: Operand) -> bool
    ensures { result ≡ formal_is i (formal_of op) }
{
    op == Operand::Formal(i)
}

// A formal is none of the others.
fn formal_new(op: Operand, others: &[Operand]) -> bool
    ensures { result ≡ formal_new (formal_of op) (formals others.now) }
{
    match op {
        Operand::Formal(i) => !others.iter().any(|o| is_formal(i, *o)),
        _ => true,
    }
}

fn formals_differ(ops: &[Operand]) -> bool
    ensures { result ≡ differ (formals ops.now) }
{
    for i in 0..ops.len() {
        if !formal_new(ops[i], &ops[i + 1..]) {
            return false;
        }
    }
    true
}

pub fn template_ok(t: Operands) -> bool
    ensures { result ≡ template_ok (operands_of t) }
{
    operands_ok(6, t) && formals_differ(&t.fields[..t.count])
}

// ---- predicates and functions

fn is_always(t: Test) -> bool
    ensures { result ≡ is_always t }
{
    t == Test::Always
}

pub fn test_ok(s: Selector) -> bool
    ensures { result ≡ test_ok s.test s.left s.right }
{
    if is_always(s.test) {
        return is_absent(s.left) & is_absent(s.right);
    }
    tagged(5, s.left) & tagged(5, s.right)
}

pub fn no_test(s: Selector) -> bool
    ensures { result ≡ (is_always s.test && test_ok Always s.left s.right) }
{
    is_always(s.test) & (is_absent(s.left) & is_absent(s.right))
}

pub fn function_ok(used: bool, f: Function, column: u8) -> bool
    ensures { result ≡ function_ok used f column }
{
    match f {
        Function::Unused => !used & (column == 0),
        Function::Count => used & (column == 0),
        Function::Sum | Function::Least | Function::Largest => used & (column < 4),
    }
}

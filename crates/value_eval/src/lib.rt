// What operands give, and what formals bind.
#![tactic(auto)]

ghost use Rattle.std.specs.Prelude.{◌≡◌, get_or, set, None, Some};
ghost use Rattle.values.specs.declared.Value.TheVariants.{Int};
ghost use Rattle.values.specs.Values.{in32};
ghost use Rattle.values.specs.Operands.{fitting, add, eval, formal_of, bind_to};

use values::{Operand, Value, Vars};

// What a variable holds; past the sixteen, nothing.
pub fn held_in(vars: Vars, i: u8) -> Option<Value>
    ensures { result ≡ get_or vars i None }
{
    *vars.get(i as usize)?
}

// An Int, if the number is within 32 bits.
pub fn int_within(s: i64) -> Option<Value>
    ensures { result ≡ fitting (in32 s) s }
{
    let i = i32::try_from(s).ok()?;
    Some(Value::Int(i))
}

// The sum is taken in 64 bits, so that leaving 32 is seen and nothing wraps.
pub fn plus(g: Option<Value>, k: i32) -> Option<Value>
    ensures { result ≡ add k g }
{
    match g {
        Some(Value::Int(i)) => int_within(i as i64 + k as i64),
        _ => None,
    }
}

pub fn eval_in(op: Operand, vars: Vars) -> Option<Value>
    ensures { result ≡ eval vars op }
{
    match op {
        Operand::ConstInt(i) => Some(Value::Int(i)),
        Operand::ConstText(t) => Some(Value::Text(t)),
        Operand::ConstLoc(l) => Some(Value::Loc(l)),
        Operand::Var(i) => held_in(vars, i),
        Operand::Plus(i, k) => plus(held_in(vars, i), k),
        _ => None,
    }
}

// A formal's variable takes what is given, but past the sixteen there is none to take it; other operands bind nothing.
pub fn bind_to(op: Operand, g: Option<Value>, vars: Vars) -> Vars
    ensures { result ≡ bind_to (formal_of op) g vars }
{
    let mut next = vars;
    if let Operand::Formal(i) = op {
        let at = i as usize;
        if at < 16 {
            next[at] = g;
        }
    }
    next
}

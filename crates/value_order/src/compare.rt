// The order of values in matching and predicates.
ghost use Rattle.std.specs.Prelude.{◌≡◌};
ghost use Rattle.values.specs.Values.{order};
ghost use Rattle.values.specs.Operands.{compared};

use crate::text::text_order;
use std::cmp::Ordering;
use values::Value;

// Values of unlike kinds have no order. No `PartialOrd`: its laws want equality to be that of `==`, and texts that differ in capitals alone are equal here.
fn value_order(a: Value, b: Value) -> Option<Ordering>
    ensures { result ≡ order a b }
{
    match (a, b) {
        (Value::Int(i), Value::Int(j)) => Some(i.cmp(&j)),
        (Value::Text(t), Value::Text(u)) => Some(text_order(t, u)),
        (Value::Loc(l), Value::Loc(m)) => Some(l.0.cmp(&m.0)),
        _ => None,
    }
}

// The order of what two operands give. Not that of `Option`, where nothing is equal to nothing.
pub fn got_order(a: Option<Value>, b: Option<Value>) -> Option<Ordering>
    ensures { result ≡ compared a b }
{
    value_order(a?, b?)
}

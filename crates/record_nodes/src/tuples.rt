// Row records: check 4, and what a row gives its table.
ghost use Rattle.std.specs.Prelude.{◌≡◌, [], map, ◌≤◌, is_some, IfSome};
ghost use Rattle.values.specs.Operands.{eval};
ghost use Rattle.rows.specs.View.{operands_of, draft_of, Short};
ghost use Rattle.record_bytes.specs.Bytes.{part, operands_in};
ghost use Rattle.record_bytes.specs.Decoding.{row_form};

use crate::operands::{operands_form, operands_in};
use net_parts::operands::operands_ok;
use net_parts::ranges::{is_text, site_ok};
use record_bytes::{KINDS, LEFT, NAME, RECORD, TUPLE, field, zeros};
use record_forms::{record_name, record_site};
use rows::{Draft, Operands};
use values::{Operand, Value};

// A row's t has constants alone, so nothing is bound.
fn constant(op: Operand) -> Option<Value>
    ensures { result ≡ eval [] op }
{
    match op {
        Operand::ConstInt(i) => Some(Value::Int(i)),
        Operand::ConstText(t) => Some(Value::Text(t)),
        Operand::ConstLoc(l) => Some(Value::Loc(l)),
        _ => None,
    }
}

// The values of a row's operands, one for each.
pub fn constants_of(t: Operands) -> Draft
    requires { Short t }
    ensures { (draft_of result ≡ map (eval []) (operands_of t)) × (result.count ≤ 4) }
{
    let [a, b, c, d] = t.fields;
    Draft {
        slots: [constant(a), constant(b), constant(c), constant(d)],
        count: t.count,
    }
}

// The operands are read once: check 4 judges them, and the table gets their values.
pub fn row_read(r: &[u8; RECORD]) -> Option<Draft>
    ensures { (is_some result ≡ row_form r.now) × IfSome result (λ d. (draft_of d ≡ map (eval []) (operands_in (part 56 88 r.now))) × (d.count ≤ 4)) }
{
    let p = field(r, TUPLE);
    let t = operands_in(p);
    let right = site_ok(record_site(r))
        & zeros(&r[2..NAME])
        & is_text(record_name(r))
        & zeros(&r[KINDS..TUPLE])
        & operands_form(p)
        & operands_ok(3, t)
        & zeros(&r[LEFT..RECORD]);
    right.then_some(constants_of(t))
}

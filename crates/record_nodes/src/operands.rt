// Operands, and lists of up to four of them. An operand has 8 bytes: its tag, a variable, two zeros, and four value bytes.
ghost use Rattle.std.specs.Prelude.{◌≡◌};
ghost use Rattle.rows.specs.View.{operands_of, Short};
ghost use Rattle.nets.specs.Sound.{is_absent};
ghost use Rattle.record_bytes.specs.Bytes.{operand_form, operand_in, operands_form, operands_in};

use record_bytes::{OPERAND, OPERANDS, before_none, field, int_in, nones_last, text_in, zeros};
use rows::Operands;
use values::{Locality, Operand};

// By tag: the bytes that it leaves unused are zero.
#[tactic(auto, unfolding(record_bytes::specs::Bytes::operand_form))]
pub fn operand_form(p: &[u8; OPERAND]) -> bool
    ensures { result ≡ operand_form p.now }
{
    let tag = p[0];
    match tag {
        0 => zeros(&p[1..8]),
        1 => zeros(&p[1..4]),
        2 => zeros(&p[1..4]),
        3 => zeros(&p[1..4]) & zeros(&p[5..8]),
        4 => zeros(&p[2..8]),
        5 => zeros(&p[2..4]),
        6 => zeros(&p[2..8]),
        _ => false,
    }
}

#[tactic(auto, unfolding(record_bytes::specs::Bytes::operand_in))]
pub fn operand_in(p: &[u8; OPERAND]) -> Operand
    ensures { result ≡ operand_in p.now }
{
    let tag = p[0];
    match tag {
        0 => Operand::Absent,
        1 => Operand::ConstInt(int_in(field(p, 4))),
        2 => Operand::ConstText(text_in(field(p, 4))),
        3 => Operand::ConstLoc(Locality(p[4])),
        4 => Operand::Var(p[1]),
        5 => Operand::Plus(p[1], int_in(field(p, 4))),
        6 => Operand::Formal(p[1]),
        _ => Operand::Absent,
    }
}

// The tag is 0, or of no operand.
#[tactic(auto, unfolding(record_bytes::specs::Bytes::operand_in))]
fn absent_in(p: &[u8; OPERAND]) -> bool
    ensures { result ≡ is_absent (operand_in p.now) }
{
    (p[0] == 0) | (6 < p[0])
}

// Up to four operands, then only tag 0.
#[tactic(auto, unfolding(record_bytes::specs::Bytes::operands_form))]
pub fn operands_form(p: &[u8; OPERANDS]) -> bool
    ensures { result ≡ operands_form p.now }
{
    let a = field(p, 0);
    let b = field(p, 8);
    let c = field(p, 16);
    let d = field(p, 24);
    operand_form(a)
        & operand_form(b)
        & operand_form(c)
        & operand_form(d)
        & nones_last(absent_in(a), absent_in(b), absent_in(c), absent_in(d))
}

// The operands before the first absent one.
#[tactic(auto, unfolding(record_bytes::specs::Bytes::operands_in))]
pub fn operands_in(p: &[u8; OPERANDS]) -> Operands
    ensures { (operands_of result ≡ operands_in p.now) × Short result }
{
    let a = field(p, 0);
    let b = field(p, 8);
    let c = field(p, 16);
    let d = field(p, 24);
    Operands {
        fields: [operand_in(a), operand_in(b), operand_in(c), operand_in(d)],
        count: before_none(absent_in(a), absent_in(b), absent_in(c), absent_in(d)),
    }
}

// Node records: the node that a record says, and check 4. In bytes 8 to 11 a create has the kinds of its columns, and other nodes have their table variables, function and column. An aggregate has T' where other nodes have the first operand of t.
ghost use Rattle.std.specs.Prelude.{◌≡◌, is_some, IfSome, cond, ◌&&◌, []};
ghost use Rattle.values.specs.declared.Operand.TheVariants.{Absent};
ghost use Rattle.rows.specs.declared.Function.TheVariants.{Unused};
ghost use Rattle.rows.specs.View.{columns_of, operands_of, selector_of};
ghost use Rattle.nets.specs.View.{kind_at, node_of};
ghost use Rattle.record_bytes.specs.Bytes.{at, part, zeros, operand_form, operand_in, operands_form, operands_in, columns_form, columns_in, test_at, is_function, function_at};
ghost use Rattle.record_bytes.specs.Decoding.{node_in, node_bytes, node_form};
ghost use Rattle.record_bytes.specs.RecordKinds.{selector_in};

use crate::operands::{operand_form, operand_in, operands_form, operands_in};
use net_parts::nodes::fields_ok;
use nets::Node;
use nets::kinds::{is_aggregate, is_create};
use record_bytes::{
    KINDS, KINDS_END, LEFT, LOCALITY, OPERAND, OPERANDS, RECORD, RIGHT, TEMPLATE, TUPLE, field,
    text_in, zeros,
};
use record_forms::{columns_form, columns_in, record_name};
use rows::{Function, Operands, Selector, Test};
use values::Operand;

// Where the second operand of t begins.
const TUPLE_SECOND: usize = 64;

// ---- the node

// Any byte gives a test or a function, whatever check 4 finds, so these are no `TryFrom`.
pub fn test_at(b: u8) -> Test
    ensures { result ≡ test_at b }
{
    match b {
        1 => Test::Equal,
        2 => Test::Unequal,
        3 => Test::Less,
        4 => Test::AtMost,
        _ => Test::Always,
    }
}

pub fn function_at(b: u8) -> Function
    ensures { result ≡ function_at b }
{
    match b {
        1 => Function::Count,
        2 => Function::Sum,
        3 => Function::Least,
        4 => Function::Largest,
        _ => Function::Unused,
    }
}

// A byte of 8 to 11 as a number: 0 for a create, which has kinds there.
fn byte_in(create: bool, b: u8) -> u8
    ensures { result ≡ cond create 0 b }
{
    if create { 0 } else { b }
}

fn function_in(create: bool, b: u8) -> Function
    ensures { result ≡ cond create Unused (function_at b) }
{
    if create {
        Function::Unused
    } else {
        function_at(b)
    }
}

fn column_count(create: bool, p: &[u8; 4]) -> usize
    ensures { columns_of result p.now ≡ cond create (columns_in p.now) [] }
{
    if create { columns_in(p) } else { 0 }
}

fn selector_in(r: &[u8; RECORD]) -> Selector
    ensures { selector_of result ≡ selector_in r.now }
{
    Selector {
        template: operands_in(field(r, TEMPLATE)),
        test: test_at(r[3]),
        left: operand_in(field(r, LEFT)),
        right: operand_in(field(r, RIGHT)),
    }
}

fn tuple_in(aggregate: bool, p: &[u8; OPERANDS]) -> Operands
    ensures { operands_of result ≡ cond aggregate [] (operands_in p.now) }
{
    let t = operands_in(p);
    if aggregate {
        Operands { count: 0, ..t }
    } else {
        t
    }
}

fn result_in(aggregate: bool, p: &[u8; OPERAND]) -> Operand
    ensures { result ≡ cond aggregate (operand_in p.now) Absent }
{
    if aggregate {
        operand_in(p)
    } else {
        Operand::Absent
    }
}

// The node that a record says, whatever check 4 finds.
#[tactic(auto, unfolding(record_bytes::specs::Decoding::node_in))]
pub fn node_in(r: &[u8; RECORD]) -> Node
    ensures { node_of result ≡ node_in r.now }
{
    let kind = r[0];
    let create = is_create(kind);
    let aggregate = is_aggregate(kind);
    let kinds = field(r, KINDS);
    Node {
        kind,
        next: r[1],
        body: r[2],
        name: record_name(r),
        bound: byte_in(create, r[8]),
        read: byte_in(create, r[9]),
        function: function_in(create, r[10]),
        column: byte_in(create, r[11]),
        columns: column_count(create, kinds),
        kinds: *kinds,
        locality: operand_in(field(r, LOCALITY)),
        selector: selector_in(r),
        tuple: tuple_in(aggregate, field(r, TUPLE)),
        result: result_in(aggregate, field(r, TUPLE)),
    }
}

// ---- check 4

// Check 4 of bytes 8 to 11 as bytes: the kinds of a create, or byte 10 as the number of a function.
fn middle_form(create: bool, b: u8, p: &[u8; 4]) -> bool
    ensures { result ≡ cond create (columns_form p.now) (is_function b) }
{
    if create { columns_form(p) } else { b <= 4 }
}

fn tuple_form(aggregate: bool, r: &[u8; RECORD]) -> bool
    ensures { result ≡ cond aggregate (operand_form (part 56 64 r.now) && zeros (part 64 88 r.now)) (operands_form (part 56 88 r.now)) }
{
    if aggregate {
        operand_form(field(r, TUPLE)) & zeros(&r[TUPLE_SECOND..LEFT])
    } else {
        operands_form(field(r, TUPLE))
    }
}

#[tactic(auto, unfolding(record_bytes::specs::Decoding::node_bytes))]
fn node_bytes(r: &[u8; RECORD]) -> bool
    ensures { result ≡ node_bytes (kind_at (at r.now 0)) r.now }
{
    let kind = r[0];
    let create = is_create(kind);
    let aggregate = is_aggregate(kind);
    (r[3] <= 4)
        & middle_form(create, r[10], field(r, KINDS))
        & (text_in(field(r, KINDS_END)) == 0)
        & operand_form(field(r, LOCALITY))
        & operands_form(field(r, TEMPLATE))
        & tuple_form(aggregate, r)
        & operand_form(field(r, LEFT))
        & operand_form(field(r, RIGHT))
}

// The node is read once: check 4 judges its fields as those of any node of a net, and loading keeps it.
#[tactic(auto, unfolding(record_bytes::specs::Decoding::node_in))]
pub fn node_read(r: &[u8; RECORD]) -> Option<Node>
    ensures { (is_some result ≡ node_form r.now) × IfSome result (λ node. node_of node ≡ node_in r.now) }
{
    let node = node_in(r);
    (node_bytes(r) & fields_ok(node)).then_some(node)
}

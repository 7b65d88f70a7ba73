// Nodes: their fields by kind (check 4) and their links (check 9).
ghost use Rattle.std.specs.Prelude.{◌≡◌, true, false, cond, ◌&&◌, eqb, leb, length, map};
ghost use Rattle.values.specs.Values.{is_text};
ghost use Rattle.rows.specs.View.{columns_of, operands_of};
ghost use Rattle.nets.specs.Nets.{has_locality, has_template, has_test, has_tuple, is_select, is_loop};
ghost use Rattle.nets.specs.Sound.{columns_ok, tagged, is_absent, locality_operand_ok, operands_ok, is_empty, fields_ok_as, links_ok_as, nodes_ok};
ghost use Rattle.nets.specs.View.{kind_at, node_of};
ghost use Rattle.net_parts.specs.SoundParts.{links_at};

use crate::operands::{
    function_ok, is_absent, locality_operand_ok, no_test, operands_ok, tagged, template_ok, test_ok,
};
use crate::ranges::is_text;
use crate::relations::columns_ok;
use nets::Node;
use nets::kinds::{
    binds_relation, has_locality, has_test, has_tuple, is_aggregate, is_create, is_loop, is_select,
    reads_relation,
};
use rows::Operands;

// A field that is used is as its rule says, and else zero.
fn ok_if_used(used: bool, ok: bool, zero: bool) -> bool
    ensures { result ≡ cond used ok zero }
{
    if used {
        return ok;
    }
    zero
}

fn tuple_ok(kind: u8, t: Operands) -> bool
    ensures { result ≡ cond (has_tuple (kind_at kind)) (operands_ok 5 (operands_of t)) (cond (is_select (kind_at kind)) (operands_ok 4 (operands_of t)) (is_empty (operands_of t))) }
{
    if has_tuple(kind) {
        return operands_ok(5, t);
    }
    if is_select(kind) {
        return operands_ok(4, t);
    }
    t.count == 0
}

// A node of an insert, insert-table, create or drop.
fn plain_ok(d: Node) -> bool
    requires { (has_template (kind_at d.kind) ≡ false) × (has_locality (kind_at d.kind) ≡ true) }
    ensures { result ≡ fields_ok_as (kind_at d.kind) (node_of d) }
{
    let kind = d.kind;
    let tuple = d.tuple;
    (d.body == 0)
        & is_text(d.name)
        & (d.bound == 0)
        & ok_if_used(reads_relation(kind), d.read < 2, d.read == 0)
        & function_ok(false, d.function, d.column)
        & ok_if_used(
            is_create(kind),
            columns_ok(d.columns, d.kinds),
            d.columns == 0,
        )
        & locality_operand_ok(d.locality)
        & (d.selector.template.count == 0)
        & no_test(d.selector)
        & ok_if_used(has_tuple(kind), operands_ok(5, tuple), tuple.count == 0)
        & is_absent(d.result)
}

// A node with a predicate: delete, the selects, update, aggregate.
fn choosing_ok(d: Node) -> bool
    requires { has_test (kind_at d.kind) ≡ true }
    ensures { result ≡ fields_ok_as (kind_at d.kind) (node_of d) }
{
    let kind = d.kind;
    let op = d.locality;
    let result = d.result;
    let aggregate = is_aggregate(kind);
    let located = has_locality(kind);
    (d.body == 0)
        & ok_if_used(located, is_text(d.name), d.name == 0)
        & ok_if_used(binds_relation(kind), d.bound < 2, d.bound == 0)
        & ok_if_used(reads_relation(kind), d.read < 2, d.read == 0)
        & function_ok(aggregate, d.function, d.column)
        & (d.columns == 0)
        & ok_if_used(located, locality_operand_ok(op), is_absent(op))
        & template_ok(d.selector.template)
        & test_ok(d.selector)
        & tuple_ok(kind, d.tuple)
        & ok_if_used(aggregate, tagged(6, result), is_absent(result))
}

// A loop's node.
fn visiting_ok(d: Node) -> bool
    requires { is_loop (kind_at d.kind) ≡ true }
    ensures { result ≡ fields_ok_as (kind_at d.kind) (node_of d) }
{
    (d.name == 0)
        & (d.bound == 0)
        & (d.read < 2)
        & function_ok(false, d.function, d.column)
        & (d.columns == 0)
        & is_absent(d.locality)
        & template_ok(d.selector.template)
        & no_test(d.selector)
        & (d.tuple.count == 0)
        & is_absent(d.result)
}

// Only what a node's kind has is judged.
pub fn fields_ok(d: Node) -> bool
    ensures { result ≡ fields_ok_as (kind_at d.kind) (node_of d) }
{
    let kind = d.kind;
    if has_test(kind) {
        return choosing_ok(d);
    }
    if is_loop(kind) {
        return visiting_ok(d);
    }
    if has_locality(kind) {
        return plain_ok(d);
    }
    false
}

// The next node, unless it is 255, and a loop's body come after node `i` and are among the `n` nodes.
pub fn links_at(kind: u8, next: u8, body: u8, i: usize, n: usize) -> bool
    ensures { result ≡ links_at (kind_at kind) n i next body }
{
    let to = next as usize;
    let first = body as usize;
    ((to == 255) | ((i < to) & (to < n))) & (!is_loop(kind) | ((i < first) & (first < n)))
}

fn links_ok(d: Node, i: usize, n: usize) -> bool
    ensures { result ≡ links_ok_as (kind_at d.kind) n i (node_of d) }
{
    links_at(d.kind, d.next, d.body, i, n)
}

// Each node is right at its place, however many there are. `net_nodes_ok` asks their number too.
pub fn nodes_ok(nodes: &[Node]) -> bool
    ensures { result ≡ nodes_ok (length nodes.now) 0 (map node_of nodes.now) }
{
    let count = nodes.len();
    for i in 0..count {
        let d = nodes[i];
        if !(fields_ok(d) & links_ok(d, i, count)) {
            return false;
        }
    }
    true
}

// The same of the nodes of a net, at most 128: a slice may be longer than the net's array.
pub fn net_nodes_ok(nodes: &[Node]) -> bool
    ensures { result ≡ (leb (length nodes.now) 128 && nodes_ok (length nodes.now) 0 (map node_of nodes.now)) }
{
    let count = nodes.len();
    if 128 < count {
        return false;
    }
    nodes_ok(nodes)
}

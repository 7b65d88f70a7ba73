// Check 12: what a node reads is bound.
#![tactic(auto)]

ghost use Rattle.std.specs.Prelude.{◌≡◌, ◌||◌};
ghost use Rattle.std.specs.List.{list_all};
ghost use Rattle.values.specs.Operands.{reads};
ghost use Rattle.rows.specs.View.{operands_of, Short};
ghost use Rattle.nets.specs.Steps.{is_bound, known, reads_ok};
ghost use Rattle.nets.specs.View.{node_of};
ghost use Rattle.step_reads.specs.ReadContracts.{flag_at, formal_in};

use nets::Node;
use nets::kinds::reads_relation;
use row_terms::is_formal_of;
use rows::Operands;
use values::{Operand, Vars};

// Past the flags there is none.
pub fn flag_in<const N: usize>(flags: [bool; N], i: u8) -> bool
    ensures { result ≡ flag_at flags.entry i }
{
    flags.get(i as usize).copied().unwrap_or(false)
}

// ---- operands

fn is_bound(vars: &Vars, i: u8) -> bool
    ensures { result ≡ is_bound vars.now i }
{
    matches!(vars.get(i as usize), Some(Some(_)))
}

fn is_formal_in(i: u8, template: &[Operand]) -> bool
    ensures { result ≡ formal_in i template.now }
{
    template.iter().any(|op| is_formal_of(i, *op))
}

fn is_known(op: Operand, vars: &Vars) -> bool
    ensures { result ≡ list_all (is_bound vars.now) (reads op) }
{
    match op {
        Operand::Var(i) | Operand::Plus(i, _) => is_bound(vars, i),
        _ => true,
    }
}

fn is_known_or_formal(op: Operand, vars: &Vars, template: &[Operand]) -> bool
    ensures { result ≡ list_all (λ i. is_bound vars.now i || formal_in i template.now) (reads op) }
{
    match op {
        Operand::Var(i) | Operand::Plus(i, _) => is_bound(vars, i) | is_formal_in(i, template),
        _ => true,
    }
}

// All that the operands read is bound.
fn all_known(ops: &[Operand], vars: &Vars) -> bool
    ensures { result ≡ known (is_bound vars.now) ops.now }
{
    ops.iter().all(|op| is_known(*op, vars))
}

// All that the operands read is bound, or a formal of T.
fn all_known_or_formal(ops: &[Operand], vars: &Vars, template: &[Operand]) -> bool
    ensures { result ≡ known (λ i. is_bound vars.now i || formal_in i template.now) ops.now }
{
    ops.iter().all(|op| is_known_or_formal(*op, vars, template))
}

// L, T' and T read bound variables; the predicate and t also formals of T.
pub fn reads_ok(node: Node, vars: Vars, tables: [bool; 2]) -> bool
    requires { Short node.selector.template × Short node.tuple }
    ensures { result ≡ reads_ok (is_bound vars) (flag_at tables) (node_of node) }
{
    let selector = node.selector;
    let template = &selector.template.fields[..selector.template.count];
    let tuple = &node.tuple.fields[..node.tuple.count];
    let own = all_known(&[node.locality, node.result], &vars) & all_known(template, &vars);
    let also = all_known_or_formal(&[selector.left, selector.right], &vars, template)
        & all_known_or_formal(tuple, &vars, template);
    own & also & (!reads_relation(node.kind) | flag_in(tables, node.read))
}

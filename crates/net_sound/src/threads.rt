// A thread but for what its loop entries hold: variables, table variables and its stack.
ghost use Rattle.std.specs.Prelude.{◌≡◌, ◌&&◌, ℕ, map, eqb, ltb, length};
ghost use Rattle.std.specs.List.{list_all};
ghost use Rattle.nets.specs.Nets as Model;
ghost use Rattle.nets.specs.Sound.{relation_ok, variable_ok, has_places};
ghost use Rattle.net_parts.specs.SoundParts.{frame_ok, bare_thread_ok};
ghost use Rattle.nets.specs.View.{marked, variable_of, node_of, thread_of};

use net_parts::ranges::{site_ok, variable_ok};
use net_parts::relations::variable_right;
use nets::kinds::is_loop;
use nets::{Entry, Frame, Node, TableVariable, Thread};
use values::Vars;

// ---- parts of a thread

pub fn vars_ok(vars: &Vars) -> bool
    ensures { result ≡ (eqb (length vars.now) 16 && list_all variable_ok vars.now) }
{
    vars.iter().all(|g| variable_ok(*g))
}

// Every place of the visit set is below n, the number of rows. The set has sixteen places, however many rows there are, so n is no length of it.
fn visit_ok(visit: &[bool; 16], n: usize) -> bool
    ensures { result ≡ list_all (λ i. ltb i n) (marked 0 visit.now) }
{
    for i in 0..16 {
        if visit[i] & (n <= i) {
            return false;
        }
    }
    true
}

// Bound, with a row at every place of the visit set.
fn has_places(v: &TableVariable, visit: &[bool; 16]) -> bool
    ensures { result ≡ has_places (marked 0 visit.now) (variable_of v.now) }
{
    match v {
        None => false,
        Some(r) => visit_ok(visit, r.count),
    }
}

fn frame_ok(nodes: &[Node], relations: &[TableVariable], f: &Frame) -> bool
    ensures { result ≡ frame_ok (map node_of nodes.now) (map variable_of relations.now) f.now }
{
    match f.entry {
        Entry::Run(i) => (i as usize) < nodes.len(),
        Entry::Loop(i) => {
            let Some(d) = nodes.get(i as usize) else {
                return false;
            };
            let Some(v) = relations.get(d.read as usize) else {
                return false;
            };
            is_loop(d.kind) & has_places(v, &f.visit)
        }
    }
}

fn stack_ok(nodes: &[Node], relations: &[TableVariable], stack: &[Frame]) -> bool
    ensures { result ≡ list_all (frame_ok (map node_of nodes.now) (map variable_of relations.now)) stack.now }
{
    stack.iter().all(|f| frame_ok(nodes, relations, f))
}

fn variables_right(relations: &[TableVariable; 2]) -> bool
    ensures { result ≡ (eqb (length (map variable_of relations.now)) 2 && list_all relation_ok (map variable_of relations.now)) }
{
    relations.iter().all(|v| variable_right(v))
}

// ---- a thread

pub fn thread_ok(nodes: &[Node], t: &Thread) -> bool
    ensures { (bs : ℕ → Model.Bindings) → result ≡ bare_thread_ok (map node_of nodes.now) (thread_of bs t.now) }
{
    let Some(stack) = t.stack.get(..t.depth) else {
        return false;
    };
    site_ok(t.site)
        & vars_ok(&t.vars)
        & variables_right(&t.relations)
        & !stack.is_empty()
        & stack_ok(nodes, &t.relations, stack)
}

// What a step that is no loop leaves: the table's content, the relation that it binds, and the variables.
ghost use Rattle.std.specs.Prelude.{◌≡◌, T};
ghost use Rattle.rows.specs.View.{relation_of};
ghost use Rattle.row_change.specs.ChangeContracts.{Holds};
ghost use Rattle.nets.specs.Nets.{binds_relation};
ghost use Rattle.nets.specs.Steps.{rows_by, bound_by, vars_by};
ghost use Rattle.nets.specs.View.{kind_at};
ghost use Rattle.step_effect.specs.EffectContracts.{parts_of, puts_rows, Doing, StepReady, JudgedIs, is_step};

use crate::Judged;
use nets::Node;
use nets::kinds::{INSERT, INSERT_TABLE, UPDATE, is_aggregate, is_select};
use row_change::appending::{append, push};
use row_change::sifting::sifted;
use row_fit::fit::{draft_of, row_of};
use rows::Relation;
use value_eval::bind_to;
use values::Vars;

// A `match` by kind: a node's kind is a byte, since a net may be handed in with any.
pub fn content_after(
    node: Node,
    content: Relation,
    source: Relation,
    vars: Vars,
    j: Judged,
) -> Relation
    requires { StepReady node content source vars × T (is_step (kind_at node.kind)) × JudgedIs node source vars j × T (puts_rows (kind_at node.kind)) × Doing node content source vars }
    ensures { Holds result (relation_of content).columns (rows_by (kind_at node.kind) (parts_of node content source vars) (relation_of content).rows) }
{
    let kind = node.kind;
    let tuple = node.tuple;
    match kind {
        UPDATE => {
            let kinds = source.kinds;
            let rows = j.rows;
            Relation {
                columns: source.columns,
                kinds,
                rows,
                count: source.count,
            }
        }
        INSERT => push(content, row_of(draft_of(tuple, vars))),
        INSERT_TABLE => append(content, source.used()),
        _ => {
            let flags = j.flags;
            sifted(source, flags, false)
        }
    }
}

pub fn bound_after(
    node: Node,
    content: Relation,
    source: Relation,
    vars: Vars,
    j: Judged,
) -> Relation
    requires { StepReady node content source vars × T (is_step (kind_at node.kind)) × JudgedIs node source vars j × T (binds_relation (kind_at node.kind)) × Doing node content source vars }
    ensures { Holds result (bound_by (kind_at node.kind) (parts_of node content source vars)).columns (bound_by (kind_at node.kind) (parts_of node content source vars)).rows }
{
    let kind = node.kind;
    let flags = j.flags;
    if is_select(kind) {
        let kinds = j.kinds;
        let rows = j.rows;
        let made = Relation {
            columns: j.columns,
            kinds,
            rows,
            count: source.count,
        };
        return sifted(made, flags, true);
    }
    sifted(source, flags, true)
}

pub fn vars_after(node: Node, content: Relation, source: Relation, vars: Vars, j: Judged) -> Vars
    requires { StepReady node content source vars × T (is_step (kind_at node.kind)) × JudgedIs node source vars j × Doing node content source vars }
    ensures { result ≡ vars_by (kind_at node.kind) (parts_of node content source vars) }
{
    let kind = node.kind;
    if is_aggregate(kind) {
        let result = node.result;
        let g = j.result;
        return bind_to(result, g, vars);
    }
    vars
}

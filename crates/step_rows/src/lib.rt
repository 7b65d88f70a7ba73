// The rows that a step speaks of are judged once, as they stood before.
#![tactic(auto)]

ghost use Rattle.std.specs.Prelude.{◌≡◌, true, T};
ghost use Rattle.rows.specs.View.{Shaped, relation_of};
ghost use Rattle.row_change.specs.ChangeContracts.{marks, sift};
ghost use Rattle.row_change.specs.Aggregates.{column_fits, aggregated};
ghost use Rattle.nets.specs.Nets.{is_select, is_update};
ghost use Rattle.nets.specs.View.{kind_at};
ghost use Rattle.step_effect.specs.EffectContracts.{JudgeReady, Long, JudgedIs};
ghost use Rattle.step_rows.specs.Passes.{pass_by};

use nets::Node;
use nets::kinds::{has_test, is_aggregate, is_select, is_update};
use row_aggregate::aggregate;
use row_change::sifting::sifted;
use row_change::{Pass, Swept};
use row_columns::selected_kinds;
use row_plan::plan_of;
use row_sweep::swept;
use row_terms::terms_of;
use rows::Relation;
use step_effect::Judged;
use step_effect::saying::column_fits;
use values::{Value, Vars};

// An aggregate's result, over the marked rows; nothing for another kind, and where the column does not fit, since check 16 comes first.
fn result_of(node: Node, source: Relation, flags: [bool; 16]) -> Option<Value>
    requires { Shaped source }
    ensures { node.kind ≡ 22 → T (column_fits node.function node.column (relation_of source).columns) → result ≡ aggregated node.function node.column (sift true (marks source.count flags) (relation_of source).rows) }
{
    if !is_aggregate(node.kind) {
        return None;
    }
    let function = node.function;
    let column = node.column;
    if column_fits(function, column, source) {
        let taken = sifted(source, flags, true);
        return aggregate(function, column, taken.used());
    }
    None
}

fn pass_of(kind: u8) -> Pass
    ensures { result ≡ pass_by (is_select (kind_at kind)) (is_update (kind_at kind)) }
{
    if is_select(kind) {
        return Pass::Select;
    }
    if is_update(kind) {
        return Pass::Update;
    }
    Pass::Mark
}

// Of a step with a predicate, in one pass over the rows. The columns of what the step makes of a row are a select's own, or the relation's.
fn judged_rows(node: Node, source: Relation, vars: Vars) -> Judged
    requires { JudgeReady node source × Long node source }
    ensures { JudgedIs node source vars result }
{
    let kind = node.kind;
    let template = node.selector.template;
    let tuple = node.tuple;
    let mut columns = source.columns;
    let mut kinds = source.kinds;
    if is_select(kind) {
        columns = tuple.count;
        let made = selected_kinds(tuple, template.used(), &source.kinds, vars);
        kinds = made;
    }
    let plan = plan_of(&node.selector, vars);
    let terms = terms_of(tuple, template.used(), vars);
    let Swept { rows, flags } = swept(
        source,
        source.count,
        &plan,
        pass_of(kind),
        terms,
        &kinds[..columns],
    );
    Judged {
        columns,
        kinds,
        rows,
        flags,
        result: result_of(node, source, flags),
    }
}

// Only steps with a predicate judge rows, and where T is not as long as the columns check 16 comes first: otherwise none are judged.
pub fn judged(node: Node, source: Relation, vars: Vars) -> Judged
    requires { JudgeReady node source }
    ensures { JudgedIs node source vars result }
{
    if has_test(node.kind) && node.selector.template.count == source.columns {
        return judged_rows(node, source, vars);
    }
    let kinds = source.kinds;
    let rows = source.rows;
    Judged {
        columns: source.columns,
        kinds,
        rows,
        flags: [false; 16],
        result: None,
    }
}

// What a step that is no loop answers, from the rows judged.
#![tactic(auto)]

ghost use Rattle.std.specs.Prelude.{◌≡◌, T};
ghost use Rattle.nets.specs.Answers.{step_said, said_of};
ghost use Rattle.nets.specs.View.{kind_at};
ghost use Rattle.step_effect.specs.EffectContracts.{parts_of, StepReady, JudgedIs, is_step};

use nets::kinds::{
    AGGREGATE, CREATE, DELETE, INSERT, INSERT_TABLE, SELECT, SELECT_RELATION, UPDATE,
};
use nets::{Answer, Done, Node, Refusal};
use row_change::sifting::count_marks;
use rows::Relation;
use step_effect::Judged;
use step_effect::saying::{checked, column_fits, insert_answer, insert_table_answer, takes};
use values::Vars;

// `held` is what check 17 asks, and found where the stack is. A `match` by kind, as a node's kind is a byte.
pub fn says(
    node: Node,
    content: Relation,
    source: Relation,
    vars: Vars,
    j: Judged,
    held: bool,
    tables: usize,
) -> Answer
    requires { StepReady node content source vars × T (is_step (kind_at node.kind)) × JudgedIs node source vars j }
    ensures { said_of result ≡ step_said (parts_of node content source vars) held tables }
{
    let kind = node.kind;
    let selector = node.selector;
    let template = selector.template;
    let function = node.function;
    let result = node.result;
    let flags = j.flags;
    let g = j.result;
    let long = template.count == source.columns;
    match kind {
        INSERT => insert_answer(node, content, vars),
        INSERT_TABLE => insert_table_answer(node, content, source, vars),
        DELETE => {
            let done = Ok(Done {
                added: 0,
                taken: count_marks(flags),
            });
            checked(long, Refusal::Misfit, checked(!held, Refusal::Held, done))
        }
        SELECT | SELECT_RELATION => {
            let bound = Ok(Done { added: 0, taken: 0 });
            checked(long, Refusal::Misfit, checked(!held, Refusal::Held, bound))
        }
        UPDATE => {
            let n = count_marks(flags);
            checked(long, Refusal::Misfit, Ok(Done { added: n, taken: n }))
        }
        AGGREGATE => {
            let fits = long & column_fits(function, node.column, source);
            let there = takes(result, g, vars);
            checked(
                fits,
                Refusal::Misfit,
                checked(there, Refusal::NoResult, Ok(Done { added: 0, taken: 0 })),
            )
        }
        CREATE => checked(tables < 8, Refusal::Full, Ok(Done { added: 0, taken: 0 })),
        _ => Ok(Done {
            added: 0,
            taken: content.count,
        }),
    }
}

// What inserts answer, and the checks of an aggregate.
ghost use Rattle.std.specs.Prelude.{ℕ, ◌≡◌, Bool, ◌&&◌, eqb, get_or};
ghost use Rattle.values.specs.Operands.{is_got};
ghost use Rattle.rows.specs.declared.Relation as Code;
ghost use Rattle.rows.specs.Matching.{matches1};
ghost use Rattle.rows.specs.View.{relation_of, Shaped, Short};
ghost use Rattle.row_change.specs.Aggregates.{column_fits};
ghost use Rattle.nets.specs.Steps.{verdict};
ghost use Rattle.nets.specs.Answers.{refusing, step_said, number_of, values_of, said_of};
ghost use Rattle.step_effect.specs.EffectContracts.{parts_of};

use nets::{Answer, Done, Node, Refusal};
use row_fit::fit::{draft_of, fits_columns, same_columns};
use row_match::{met, want_of};
use rows::{Function, Relation};
use values::kinds::INT;
use values::{Operand, Value, Vars};

// A check that fails refuses.
pub fn checked(ok: bool, why: Refusal, then: Answer) -> Answer
    ensures { said_of result ≡ verdict refusing ok (number_of why) (values_of why) (said_of then) }
{
    if ok {
        return then;
    }
    Err(why)
}

// ---- inserts

pub fn insert_answer(node: Node, content: Relation, vars: Vars) -> Answer
    requires { Shaped content × Short node.tuple × (node.kind ≡ 16) }
    ensures { (source : Code.Relation) (held : Bool) (tables : ℕ) → said_of result ≡ step_said (parts_of node content source vars) held tables }
{
    let draft = draft_of(node.tuple, vars);
    let fits = fits_columns(content.column_kinds(), draft.given());
    let room = content.count < 16;
    checked(
        fits,
        Refusal::Misfit,
        checked(room, Refusal::Full, Ok(Done { added: 1, taken: 0 })),
    )
}

pub fn insert_table_answer(node: Node, content: Relation, source: Relation, vars: Vars) -> Answer
    requires { Shaped content × Shaped source × (node.kind ≡ 17) }
    ensures { (held : Bool) (tables : ℕ) → said_of result ≡ step_said (parts_of node content source vars) held tables }
{
    let more = source.count;
    let same = same_columns(content.column_kinds(), source.column_kinds());
    let room = content.count + more <= 16;
    checked(
        same,
        Refusal::Misfit,
        checked(
            room,
            Refusal::Full,
            Ok(Done {
                added: more,
                taken: 0,
            }),
        ),
    )
}

// ---- aggregates

fn is_int_column(at: u8, r: Relation) -> bool
    requires { Shaped r }
    ensures { result ≡ eqb (get_or (relation_of r).columns at 0) 1 }
{
    let i = at as usize;
    if r.columns <= i {
        return false;
    }
    let kinds = r.kinds;
    kinds[i] == INT
}

// Functions 2..4 want a column that is there and Int.
pub fn column_fits(f: Function, at: u8, r: Relation) -> bool
    requires { Shaped r }
    ensures { result ≡ column_fits f at (relation_of r).columns }
{
    match f {
        Function::Unused => false,
        Function::Count => true,
        Function::Sum => is_int_column(at, r),
        Function::Least => is_int_column(at, r),
        Function::Largest => is_int_column(at, r),
    }
}

// T' takes what is given, if anything is.
pub fn takes(op: Operand, g: Option<Value>, vars: Vars) -> bool
    ensures { result ≡ (is_got g && matches1 vars op g) }
{
    match g {
        None => false,
        Some(v) => met(want_of(op, vars), v),
    }
}

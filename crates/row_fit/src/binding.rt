// T's formals bound to a row's values, for the rounds of loops.
ghost use Rattle.std.specs.Prelude.{◌≡◌};
ghost use Rattle.rows.specs.Matching.{row_vars};

use value_eval::bind_to;
use values::{Operand, Value, Vars};

// With `fold` the proof did not close: of a closure that takes and gives all variables nothing is told.
pub fn bind_row(template: &[Operand], row: &[Value], vars: Vars) -> Vars
    ensures { result ≡ row_vars vars template.now row.now }
{
    let mut next = vars;
    for (op, v) in template.iter().zip(row) {
        let bound = bind_to(*op, Some(*v), next);
        next = bound;
    }
    next
}

// The rows of a relation that are marked, or not, and how many are.
ghost use Rattle.std.specs.Prelude.{◌≡◌, Bool};
ghost use Rattle.values.specs.Lists.{count};
ghost use Rattle.rows.specs.View.{relation_of, Shaped};
ghost use Rattle.row_change.specs.ChangeContracts.{Holds, marks, sift};

use rows::Relation;

// The rows whose mark is as wanted, in order. They move to the front of their array: with no heap there is nothing to `collect` them in.
pub fn sifted(r: Relation, flags: [bool; 16], want: bool) -> Relation
    requires { Shaped r }
    ensures { Holds result (relation_of r).columns (sift want (marks r.count flags) (relation_of r).rows) }
{
    let mut rows = r.rows;
    let mut found: usize = 0;
    for i in 0..r.count {
        let flag = flags[i];
        if flag == want {
            rows[found] = rows[i];
            found += 1;
        }
    }
    let kinds = r.kinds;
    Relation {
        columns: r.columns,
        kinds,
        rows,
        count: found,
    }
}

pub fn count_marks(flags: [bool; 16]) -> usize
    ensures { result ≡ count (λ (b : Bool). b) flags }
{
    flags.iter().filter(|flag| **flag).count()
}

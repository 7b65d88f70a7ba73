// Rows appended to a relation.
ghost use Rattle.std.specs.Prelude.{◌≡◌, [], ◌∷◌, ◌++◌, ◌+◌, ◌≤◌, ◌<◌, length, map};
ghost use Rattle.rows.specs.View.{values_of, relation_of, Shaped};
ghost use Rattle.row_change.specs.ChangeContracts.{Holds};

use rows::{Relation, Row};

// One row more, at the end.
pub fn push(r: Relation, row: Row) -> Relation
    requires { Shaped r × (r.count < 16) }
    ensures { Holds result (relation_of r).columns ((relation_of r).rows ++ (values_of r.columns row ∷ [])) }
{
    let at = r.count;
    let mut o = r;
    o.rows[at] = row;
    o.count = at + 1;
    o
}

// Other rows, read as the relation's columns, in order at the end.
pub fn append(r: Relation, more: &[Row]) -> Relation
    requires { Shaped r × (r.count + length more.now ≤ 16) }
    ensures { Holds result (relation_of r).columns ((relation_of r).rows ++ map (values_of r.columns) more.now) }
{
    let end = r.count + more.len();
    let mut o = r;
    o.rows[r.count..end].copy_from_slice(more);
    o.count = end;
    o
}

// Small parts that a step reads off a net.
ghost use Rattle.std.specs.Prelude.{◌≡◌, cond, ltb};
ghost use Rattle.values.specs.Lists.{or_else};
ghost use Rattle.rows.specs.Relations.{no_relation};
ghost use Rattle.rows.specs.View.{relation_of};
ghost use Rattle.nets.specs.View.{no_site};

use rows::Relation;
use values::Site;

// Where L leads nowhere any site will do: check 13 refuses the step, whatever table is found there.
pub fn site_or_any(l: Option<Site>) -> Site
    ensures { result ≡ or_else no_site l }
{
    l.unwrap_or(Site(0))
}

// The place above the top of a stack; of a full one the top itself.
pub fn over(depth: usize, top: usize) -> usize
    ensures { result ≡ cond (ltb depth 8) depth top }
{
    if depth < 8 {
        return depth;
    }
    top
}

// The content of the table that was found; else no columns and no rows, whatever stands in the arrays.
pub fn shown(found: bool, r: Relation) -> Relation
    ensures { relation_of result ≡ cond found (relation_of r) no_relation }
{
    if found {
        return r;
    }
    let kinds = r.kinds;
    let rows = r.rows;
    Relation {
        columns: 0,
        kinds,
        rows,
        count: 0,
    }
}

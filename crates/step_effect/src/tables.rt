// Tables after a step: a new one, and whether the one found gives way.
ghost use Rattle.std.specs.Prelude.{◌≡◌, []};
ghost use Rattle.step_effect.specs.EffectContracts.{puts_rows};
ghost use Rattle.nets.specs.View.{kind_at, table_of, node_of};

use nets::kinds::{DELETE, INSERT, INSERT_TABLE, UPDATE};
use nets::{Node, Table};
use rows::Relation;
use values::Site;

// A table of a create, with no rows.
pub fn created(site: Site, node: Node, content: Relation) -> Table
    ensures { table_of result ≡ record { site = site; name = node.name; content = record { columns = (node_of node).columns; rows = [] } } }
{
    let kinds = node.kinds;
    let rows = content.rows;
    let empty = Relation {
        columns: node.columns,
        kinds,
        rows,
        count: 0,
    };
    Table {
        site,
        name: node.name,
        content: empty,
    }
}

// The step changes the rows of a table that stays.
#[tactic(auto, using(nets::proofs::KindLaws::code_of_byte))]
pub fn puts_rows(kind: u8) -> bool
    ensures { result ≡ puts_rows (kind_at kind) }
{
    matches!(kind, INSERT | INSERT_TABLE | DELETE | UPDATE)
}

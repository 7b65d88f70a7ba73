// The blank relation and the blank table, which arrays hold where none is in use.
ghost use Rattle.std.specs.Prelude.{◌≡◌};
ghost use Rattle.files.specs.Empty.{blank_relation, blank_table};

use nets::Table;
use rows::{Relation, Row};
use values::{Site, Value};

pub fn blank_relation() -> Relation
    ensures { result ≡ blank_relation }
{
    let cell = Value::Int(0);
    let row = Row { cells: [cell; 4] };
    Relation {
        columns: 0,
        kinds: [0; 4],
        rows: [row; 16],
        count: 0,
    }
}

pub fn blank_table() -> Table
    ensures { result ≡ blank_table }
{
    Table {
        site: Site(0),
        name: 0,
        content: blank_relation(),
    }
}

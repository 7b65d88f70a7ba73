// The table of a site and name.
ghost use Rattle.std.specs.Prelude.{◌≡◌};
ghost use Rattle.std.specs.List.{position};
ghost use Rattle.nets.specs.Tables.{is_at};
ghost use Rattle.nets.specs.View.{table_of};

use crate::Table;
use values::Site;

fn is_at(t: &Table, s: Site, name: u32) -> bool
    ensures { result ≡ is_at s name (table_of t.now) }
{
    (s == t.site) & (name == t.name)
}

// The place of the table of a site and name.
pub fn find_table(tables: &[Table], s: Site, name: u32) -> Option<usize>
    ensures { result ≡ position (λ t. is_at s name (table_of t)) tables.now }
{
    tables.iter().position(|t| is_at(t, s, name))
}

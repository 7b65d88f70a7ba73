// Table records, group 2: checks 4, 6 and 8.
ghost use Rattle.std.specs.Prelude.{◌≡◌, [], map, MatchResult};
ghost use Rattle.std.specs.List.{list_any};
ghost use Rattle.rows.specs.View.{Shaped};
ghost use Rattle.nets.specs.Tables.{is_at};
ghost use Rattle.nets.specs.View.{no_table, table_of, tables_of};
ghost use Rattle.record_bytes.specs.Bytes.{part, columns_in};
ghost use Rattle.record_bytes.specs.Decoding.{site_at, name_in};
ghost use Rattle.files.specs.Loading.{bare};
ghost use Rattle.load_walk.specs.Walking.{put_tables, Each, AllShaped, LeadsPast, Stops, Going};

use crate::walk::{Item, walk};
use files::Fault;
use load_walk::blanks::{blank_relation, blank_table};
use load_walk::walking::first_fault;
use load_walk::{Reach, Read};
use nets::Table;
use record_bytes::{KINDS, RECORD, field};
use record_forms::{columns_in, record_name, record_site, table_form};
use rows::Relation;
use values::Site;

// A table has this site and name.
fn label_among(tables: &[Table], s: Site, name: u32) -> bool
    ensures { result ≡ list_any (λ t. is_at s name (table_of t)) tables.now }
{
    tables.iter().any(|t| (s == t.site) & (name == t.name))
}

// The table, with no rows yet.
fn table_in(r: &[u8; RECORD]) -> Table
    ensures { (table_of result ≡ bare (site_at 1 r.now) (name_in r.now) (columns_in (part 8 12 r.now))) × Shaped result.content }
{
    let kinds = field(r, KINDS);
    Table {
        site: record_site(r),
        name: record_name(r),
        content: Relation {
            columns: columns_in(kinds),
            kinds: *kinds,
            ..blank_relation()
        },
    }
}

impl Item for Table {
    const GROUP: u8 = 2;

    ghost GROUP = { 2 };

    ghost ROOM = { 8 };

    ghost put = { λ ts. put_tables (map table_of ts) };

    ghost Kept = { Each (λ t. Shaped t.content) no_table };

    fn read(place: usize, r: &[u8; RECORD], before: &[Table]) -> Result<Table, Fault> {
        let old = label_among(before, record_site(r), record_name(r));
        first_fault(place, table_form(r), !old, before.len() < 8)?;
        Ok(table_in(r))
    }
}

pub fn tables_from(file: &[u8], from: Reach) -> Result<Read<Table, 8>, Fault>
    requires { Going file.now 2 from }
    ensures { MatchResult result
        (λ read. LeadsPast file.now 2 from read.reach (put_tables []) (put_tables (tables_of read.count read.items)) × AllShaped read.count read.items)
        (λ fault. Stops file.now from fault (put_tables [])) }
{
    walk(file, from, blank_table())
}

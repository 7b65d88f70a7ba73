// Aliases and tables: each in its ranges, no two alike.
ghost use Rattle.std.specs.Prelude.{◌≡◌, not, ◌&&◌, leb, length, map};
ghost use Rattle.std.specs.List.{list_all, list_any};
ghost use Rattle.nets.specs.Tables.{is_at, rows_fit, distinct};
ghost use Rattle.nets.specs.Sound.{alias_ok, same_alias, aliases_differ, table_ok};
ghost use Rattle.nets.specs.View.{table_of};
ghost use Rattle.net_parts.specs.SoundParts.{alias_place};

use crate::ranges::{locality_ok, site_ok};
use crate::relations::table_ok;
use nets::{Alias, Table};

// ---- aliases

fn alias_ok(a: Alias) -> bool
    ensures { result ≡ alias_ok a }
{
    site_ok(a.site) & ((1 <= a.locality.0) & locality_ok(a.locality)) & site_ok(a.means)
}

// Not `==`: two that mean different sites are the same alias too.
fn same_alias(a: Alias, b: Alias) -> bool
    ensures { result ≡ same_alias a b }
{
    (a.site == b.site) & (a.locality == b.locality)
}

// Its place among the pairs of a site and a locality.
fn alias_place(a: Alias) -> usize
    ensures { result ≡ alias_place a }
{
    (a.site.0 as usize) * 8 + (a.locality.0 as usize)
}

// From the last alias to the first; the pairs of those passed are marked.
pub fn aliases_ok(aliases: &[Alias]) -> bool
    ensures { result ≡ (list_all alias_ok aliases.now && aliases_differ aliases.now) }
{
    let mut seen = [false; 64];
    for i in (0..aliases.len()).rev() {
        let a = aliases[i];
        if !alias_ok(a) {
            return false;
        }
        let at = alias_place(a);
        if seen[at] {
            return false;
        }
        seen[at] = true;
    }
    true
}

// ---- tables

// None of the others has this one's site and name.
fn table_new(t: &Table, others: &[Table]) -> bool
    ensures { result ≡ not (list_any (is_at t.now.site t.now.name) (map table_of others.now)) }
{
    !others
        .iter()
        .any(|u| (t.site == u.site) & (t.name == u.name))
}

// Each table is right, and no two have one site and name, however many there are. `net_tables_ok` asks their number too.
pub fn tables_ok(tables: &[Table]) -> bool
    ensures { result ≡ (list_all table_ok (map table_of tables.now) && list_all rows_fit (map table_of tables.now) && distinct (map table_of tables.now)) }
{
    for i in 0..tables.len() {
        let t = &tables[i];
        if !(table_ok(t) & table_new(t, &tables[i + 1..])) {
            return false;
        }
    }
    true
}

// The same of the tables of a net, at most 8: a slice may be longer than the net's array.
pub fn net_tables_ok(tables: &[Table]) -> bool
    ensures { result ≡ (leb (length tables.now) 8 && (list_all table_ok (map table_of tables.now) && list_all rows_fit (map table_of tables.now) && distinct (map table_of tables.now))) }
{
    if 8 < tables.len() {
        return false;
    }
    tables_ok(tables)
}

// Alias, table, start and pick records: check 4 of each, and what its fields say.
#![tactic(auto)]

ghost use Rattle.std.specs.Prelude.{◌≡◌, ◌≤◌};
ghost use Rattle.rows.specs.View.{columns_of};
ghost use Rattle.record_bytes.specs.Bytes.{columns_form, columns_in};
ghost use Rattle.record_bytes.specs.Decoding.{site_at, name_in, alias_in, pick_in, alias_form, table_form, start_form, pick_form};
ghost use Rattle.record_bytes.specs.RecordKinds.{group_at};

use net_parts::ranges::{is_text, locality_ok, site_ok};
use net_parts::relations::columns_ok;
use nets::{Alias, Pick};
use record_bytes::{
    KINDS, KINDS_END, NAME, RECORD, before_none, field, nones_last, text_in, zeros,
};
use values::{Locality, Site};

// The group of a kind, in the order in which groups come; 0 for an unknown kind. Kinds are numbers, since a file may have any byte there.
pub fn group_of(kind: u8) -> u8
    ensures { result ≡ group_at kind }
{
    match kind {
        1 => 1,
        2 => 2,
        3 => 3,
        16..=26 => 4,
        32 => 5,
        33 => 6,
        _ => 0,
    }
}

// ---- fields

// The site that an alias, table, row or start names.
pub fn record_site(r: &[u8; RECORD]) -> Site
    ensures { result ≡ site_at 1 r.now }
{
    Site(r[1])
}

pub fn record_name(r: &[u8; RECORD]) -> u32
    ensures { result ≡ name_in r.now }
{
    text_in(field(r, NAME))
}

pub fn alias_in(r: &[u8; RECORD]) -> Alias
    ensures { result ≡ alias_in r.now }
{
    Alias {
        site: Site(r[1]),
        locality: Locality(r[2]),
        means: Site(r[3]),
    }
}

pub fn pick_in(r: &[u8; RECORD]) -> Pick
    ensures { result ≡ pick_in r.now }
{
    Pick {
        thread: r[1],
        row: r[2],
    }
}

// ---- columns: four kinds, of which those before the first 0 count

pub fn columns_in(p: &[u8; 4]) -> usize
    ensures { (columns_of result p.now ≡ columns_in p.now) × (result ≤ 4) }
{
    before_none(p[0] == 0, p[1] == 0, p[2] == 0, p[3] == 0)
}

pub fn columns_form(p: &[u8; 4]) -> bool
    ensures { result ≡ columns_form p.now }
{
    nones_last(p[0] == 0, p[1] == 0, p[2] == 0, p[3] == 0)
}

// ---- check 4

#[tactic(auto, unfolding(record_bytes::specs::Decoding::alias_form))]
pub fn alias_form(r: &[u8; RECORD]) -> bool
    ensures { result ≡ alias_form r.now }
{
    let a = alias_in(r);
    let l = a.locality;
    site_ok(a.site) & ((1 <= l.0) & locality_ok(l)) & site_ok(a.means) & zeros(&r[NAME..RECORD])
}

#[tactic(auto, unfolding(record_bytes::specs::Decoding::table_form))]
pub fn table_form(r: &[u8; RECORD]) -> bool
    ensures { result ≡ table_form r.now }
{
    let kinds = field(r, KINDS);
    site_ok(record_site(r))
        & zeros(&r[2..NAME])
        & is_text(record_name(r))
        & columns_form(kinds)
        & columns_ok(columns_in(kinds), *kinds)
        & zeros(&r[KINDS_END..RECORD])
}

#[tactic(auto, unfolding(record_bytes::specs::Decoding::start_form))]
pub fn start_form(r: &[u8; RECORD]) -> bool
    ensures { result ≡ start_form r.now }
{
    site_ok(record_site(r)) & zeros(&r[3..RECORD])
}

#[tactic(auto, unfolding(record_bytes::specs::Decoding::pick_form))]
pub fn pick_form(r: &[u8; RECORD]) -> bool
    ensures { result ≡ pick_form r.now }
{
    zeros(&r[3..RECORD])
}

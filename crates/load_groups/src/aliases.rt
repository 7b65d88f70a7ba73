// Alias records, group 1: checks 4 and 6. No two aliases are alike, so there is room for all.
ghost use Rattle.std.specs.Prelude.{◌≡◌, [], T, MatchResult};
ghost use Rattle.std.specs.List.{list_all, list_any};
ghost use Rattle.nets.specs.Sound.{alias_ok, same_alias, aliases_differ};
ghost use Rattle.nets.specs.View.{aliases_of};
ghost use Rattle.load_walk.specs.Walking.{put_aliases, LeadsPast, Stops, Going};

use crate::blanks::blank_alias;
use crate::walk::{Item, walk};
use files::Fault;
use load_walk::walking::first_fault;
use load_walk::{Reach, Read};
use nets::Alias;
use record_bytes::RECORD;
use record_forms::{alias_form, alias_in};

// An alias has its site and locality.
fn alias_among(aliases: &[Alias], a: Alias) -> bool
    ensures { result ≡ list_any (λ b. same_alias b a) aliases.now }
{
    aliases
        .iter()
        .any(|b| (b.site == a.site) & (b.locality == a.locality))
}

impl Item for Alias {
    const GROUP: u8 = 1;

    ghost GROUP = { 1 };

    ghost ROOM = { 56 };

    ghost put = { put_aliases };

    ghost Kept = { λ ls. T (list_all alias_ok ls) × T (aliases_differ ls) };

    fn read(place: usize, r: &[u8; RECORD], before: &[Alias]) -> Result<Alias, Fault> {
        let a = alias_in(r);
        first_fault(place, alias_form(r), !alias_among(before, a), true)?;
        Ok(a)
    }
}

// What `walk` promises, said of the array and the count that a net has; `nodes_from` and its like do the same for theirs.
pub fn aliases_from(file: &[u8], from: Reach) -> Result<Read<Alias, 56>, Fault>
    requires { Going file.now 1 from }
    ensures { MatchResult result
        (λ read. LeadsPast file.now 1 from read.reach (put_aliases []) (put_aliases (aliases_of read.count read.items)))
        (λ fault. Stops file.now from fault (put_aliases [])) }
{
    walk(file, from, blank_alias())
}

// Where a step acts: the site that L means.
ghost use Rattle.std.specs.Prelude.{◌≡◌};
ghost use Rattle.std.specs.List.{find};
ghost use Rattle.nets.specs.Scenes.{alias_for, site_meant, site_of_got};

use nets::Alias;
use values::{Locality, Site, Value};

fn is_alias(a: Alias, s: Site, l: Locality) -> bool
    ensures { result ≡ alias_for s l a }
{
    (s == a.site) & (l == a.locality)
}

fn alias_of(aliases: &[Alias], s: Site, l: Locality) -> Option<Alias>
    ensures { result ≡ find (alias_for s l) aliases.now }
{
    aliases.iter().copied().find(|a| is_alias(*a, s, l))
}

// Locality 0 is the site itself; others need an alias.
fn site_meant(aliases: &[Alias], s: Site, l: Locality) -> Option<Site>
    ensures { result ≡ site_meant aliases.now s l }
{
    if l.0 == 0 {
        return Some(s);
    }
    Some(alias_of(aliases, s, l)?.means)
}

pub fn site_of(aliases: &[Alias], s: Site, g: Option<Value>) -> Option<Site>
    ensures { result ≡ site_of_got aliases.now s g }
{
    let Some(Value::Loc(l)) = g else {
        return None;
    };
    site_meant(aliases, s, l)
}

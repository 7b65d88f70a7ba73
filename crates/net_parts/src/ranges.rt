// Sites, localities, texts and values in their ranges.
ghost use Rattle.std.specs.Prelude.{◌≡◌};
ghost use Rattle.values.specs.Values.{site_ok, locality_ok, is_text, in_range};
ghost use Rattle.nets.specs.Sound.{variable_ok};

use values::{Locality, Site, Value};

pub fn site_ok(s: Site) -> bool
    ensures { result ≡ site_ok s }
{
    s.0 < 8
}

pub fn locality_ok(l: Locality) -> bool
    ensures { result ≡ locality_ok l }
{
    l.0 < 8
}

// The four bytes at once: with 1 added or not, none has its high bit; with 96 added, each has it.
pub fn is_text(t: u32) -> bool
    ensures { result ≡ is_text t }
{
    let x = t as u64;
    ((x & 0x80808080) == 0)
        & (((x + 0x01010101) & 0x80808080) == 0)
        & (((x + 0x60606060) & 0x80808080) == 0x80808080)
}

// Any i32 is in range; its arm binds it so that the proof has its bounds.
pub fn in_range(v: Value) -> bool
    ensures { result ≡ in_range v }
{
    match v {
        Value::Int(_i) => true,
        Value::Text(t) => is_text(t),
        Value::Loc(l) => locality_ok(l),
    }
}

pub fn variable_ok(s: Option<Value>) -> bool
    ensures { result ≡ variable_ok s }
{
    s.is_none_or(in_range)
}

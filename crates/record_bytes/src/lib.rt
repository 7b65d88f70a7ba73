// What bytes say: fields, numbers, texts, unused bytes, and lists that end with nones.
#![tactic(auto)]

ghost use Rattle.std.specs.Prelude.{◌≡◌, Bool, [], ◌∷◌, ◌+◌, ◌≤◌, length};
ghost use Rattle.record_bytes.specs.Bytes.{part, text_in, int_in, zeros, leading, then_only};

// ---- the layout of a record

// How many bytes a record has.
pub const RECORD: usize = 104;

// How many bytes an operand has, and a list of four.
pub const OPERAND: usize = 8;

pub const OPERANDS: usize = 32;

// Where fields of more than one byte begin: the name; the column kinds of a table or of a create, and the byte after the last kind; L; T; t; the two operands of the predicate.
pub const NAME: usize = 4;

pub const KINDS: usize = 8;

pub const KINDS_END: usize = 12;

pub const LOCALITY: usize = 16;

pub const TEMPLATE: usize = 24;

pub const TUPLE: usize = 56;

pub const LEFT: usize = 88;

pub const RIGHT: usize = 96;

// The field of N bytes that begins at a place: who takes it says how many.
pub fn field<const N: usize>(p: &[u8], start: usize) -> &[u8; N]
    requires { start + N ≤ length p.now }
    ensures { result.now ≡ part start (start + N) p.now }
{
    p[start..start + N].first_chunk().unwrap()
}

// ---- numbers and texts

// The first byte is the highest.
pub fn text_in(p: &[u8; 4]) -> u32
    ensures { result ≡ text_in p.now }
{
    u32::from_be_bytes(*p)
}

// A signed number, the first byte the lowest.
pub fn int_in(p: &[u8; 4]) -> i32
    ensures { result ≡ int_in p.now }
{
    i32::from_le_bytes(*p)
}

// ---- unused bytes

// All bytes are zero.
pub fn zeros(p: &[u8]) -> bool
    ensures { result ≡ zeros p.now }
{
    p.iter().all(|b| *b == 0)
}

// Of four flags that say none: how many places come before the first none.
pub fn before_none(a: bool, b: bool, c: bool, d: bool) -> usize
    ensures { (result ≡ length (leading (λ (x : Bool). x) (a ∷ b ∷ c ∷ d ∷ []))) × (result ≤ 4) }
{
    [a, b, c, d].iter().position(|none| *none).unwrap_or(4)
}

// After the first none there are only nones.
pub fn nones_last(a: bool, b: bool, c: bool, d: bool) -> bool
    ensures { result ≡ then_only (λ (x : Bool). x) (a ∷ b ∷ c ∷ d ∷ []) }
{
    (!a | b) & (!b | c) & (!c | d)
}

// Classes of node kinds, by the kind byte.
#![tactic(auto, using(crate::proofs::KindLaws::code_of_byte))]

ghost use Rattle.std.specs.Prelude.{◌≡◌};
ghost use Rattle.nets.specs.Nets.{has_locality, needs_table, has_test, has_tuple, is_select, reads_relation, binds_relation, is_loop, is_update, is_aggregate, is_create, is_parallel, is_sequential};
ghost use Rattle.nets.specs.View.{kind_at};

// The kind bytes. They are numbers and no enum, since a net may be handed in with any byte, and is then refused.
pub const INSERT: u8 = 16;

pub const INSERT_TABLE: u8 = 17;

pub const DELETE: u8 = 18;

pub const SELECT: u8 = 19;

pub const SELECT_RELATION: u8 = 20;

pub const UPDATE: u8 = 21;

pub const AGGREGATE: u8 = 22;

pub const CREATE: u8 = 23;

pub const DROP: u8 = 24;

pub const SEQUENTIAL: u8 = 25;

pub const PARALLEL: u8 = 26;

// The step has an L and a name.
pub fn has_locality(kind: u8) -> bool
    ensures { result ≡ has_locality (kind_at kind) }
{
    matches!(
        kind,
        INSERT | INSERT_TABLE | DELETE | SELECT | UPDATE | AGGREGATE | CREATE | DROP
    )
}

// The table must be there.
pub fn needs_table(kind: u8) -> bool
    ensures { result ≡ needs_table (kind_at kind) }
{
    matches!(
        kind,
        INSERT | INSERT_TABLE | DELETE | SELECT | UPDATE | AGGREGATE | DROP
    )
}

// The step has a predicate.
pub fn has_test(kind: u8) -> bool
    ensures { result ≡ has_test (kind_at kind) }
{
    matches!(kind, DELETE | SELECT | SELECT_RELATION | UPDATE | AGGREGATE)
}

// The step has a t with tags 1..5.
pub fn has_tuple(kind: u8) -> bool
    ensures { result ≡ has_tuple (kind_at kind) }
{
    matches!(kind, INSERT | UPDATE)
}

pub fn is_select(kind: u8) -> bool
    ensures { result ≡ is_select (kind_at kind) }
{
    matches!(kind, SELECT | SELECT_RELATION)
}

// The step reads a table variable.
pub fn reads_relation(kind: u8) -> bool
    ensures { result ≡ reads_relation (kind_at kind) }
{
    matches!(kind, INSERT_TABLE | SELECT_RELATION | SEQUENTIAL | PARALLEL)
}

// The step binds a table variable.
pub fn binds_relation(kind: u8) -> bool
    ensures { result ≡ binds_relation (kind_at kind) }
{
    matches!(kind, DELETE | SELECT | SELECT_RELATION)
}

pub fn is_loop(kind: u8) -> bool
    ensures { result ≡ is_loop (kind_at kind) }
{
    matches!(kind, SEQUENTIAL | PARALLEL)
}

pub fn is_update(kind: u8) -> bool
    ensures { result ≡ is_update (kind_at kind) }
{
    kind == UPDATE
}

pub fn is_create(kind: u8) -> bool
    ensures { result ≡ is_create (kind_at kind) }
{
    kind == CREATE
}

pub fn is_aggregate(kind: u8) -> bool
    ensures { result ≡ is_aggregate (kind_at kind) }
{
    kind == AGGREGATE
}

pub fn is_sequential(kind: u8) -> bool
    ensures { result ≡ is_sequential (kind_at kind) }
{
    kind == SEQUENTIAL
}

pub fn is_parallel(kind: u8) -> bool
    ensures { result ≡ is_parallel (kind_at kind) }
{
    kind == PARALLEL
}

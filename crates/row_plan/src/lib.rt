// Selectors prepared for one relation, and the rows that they select.
#![tactic(auto)]

ghost use Rattle.std.specs.Prelude.{◌≡◌, length};
ghost use Rattle.rows.specs.Matching.{agrees, hits};
ghost use Rattle.rows.specs.View.{selector_of, values_of, Short};
ghost use Rattle.rows.specs.Plans.{is_anything, as_wanted, wants_met, plan_hits};

use row_match::{row_matches, wants_of};
use row_terms::{term_got, term_of};
use rows::{Plan, Row, Selector, Test, Want};
use std::cmp::Ordering;
use value_order::compare::got_order;
use values::Vars;

// ---- any row will do

fn takes_any(w: Want) -> bool
    ensures { result ≡ is_anything w }
{
    w == Want::Anything
}

// No wants, where any row matches.
fn needed(wants: [Want; 4]) -> Option<[Want; 4]>
    ensures { (row : Row) → length row.cells ≡ 4 → as_wanted result row.cells ≡ wants_met wants row.cells }
{
    if wants.iter().all(|w| takes_any(*w)) {
        return None;
    }
    Some(wants)
}

fn as_wanted(wants: &Option<[Want; 4]>, row: &Row) -> bool
    ensures { result ≡ as_wanted wants.now row.now.cells }
{
    match wants {
        None => true,
        Some(wants) => row_matches(wants, row),
    }
}

// ---- the predicate, and the rows selected

// Unlike kinds are neither equal nor unequal.
fn test_holds(t: Test, o: Option<Ordering>) -> bool
    ensures { result ≡ agrees t o }
{
    match t {
        Test::Always => true,
        Test::Equal => o.is_some_and(Ordering::is_eq),
        Test::Unequal => o.is_some_and(Ordering::is_ne),
        Test::Less => o.is_some_and(Ordering::is_lt),
        Test::AtMost => o.is_some_and(Ordering::is_le),
    }
}

// A plan is made for rows of four cells, so T may have no more places; `Operands` may count more, as `Short` says.
pub fn plan_of(s: &Selector, vars: Vars) -> Plan
    requires { Short s.now.template }
    ensures { (row : Row) → length row.cells ≡ 4 → plan_hits result row ≡ hits vars (selector_of s.now) (values_of s.now.template.count row) }
{
    let template = s.template.used();
    Plan {
        wants: needed(wants_of(template, vars)),
        test: s.test,
        left: term_of(s.left, template, vars),
        right: term_of(s.right, template, vars),
    }
}

#[tactic(auto, unfolding(rows::specs::Plans::plan_hits))]
pub fn row_hits(p: &Plan, row: &Row) -> bool
    ensures { result ≡ plan_hits p.now row.now }
{
    as_wanted(&p.wants, row)
        && test_holds(
            p.test,
            got_order(term_got(p.left, row), term_got(p.right, row)),
        )
}

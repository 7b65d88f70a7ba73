// Sums over answers, and over the rows, variables and heights of stacks of a net, to compare with the second engine's.
ghost use Rattle.std.specs.Prelude.{◌<◌};

use nets::refusals::number_of;
use nets::{Answer, Done, Net, Table, TableVariable, Thread};
use rows::{Relation, Row};
use values::Value;

// The sum with one number more.
pub fn with(sum: u64, number: u64) -> u64 {
    sum % 4294967296 * 31 + number % 4294967296
}

// ---- answers

// No count of an answer is over 16.
pub fn with_answer(sum: u64, a: Answer) -> u64 {
    match a {
        Ok(Done { added, taken }) => with(sum, (added % 32 * 32 + taken % 32 + 1) as u64),
        Err(r) => with(sum, 1025 + number_of(r) as u64),
    }
}

// ---- rows

fn with_value(sum: u64, v: Value) -> u64 {
    match v {
        // No Int of these nets is below zero.
        Value::Int(i) => with(with(sum, 1), i.max(0) as u64),
        Value::Text(t) => with(with(sum, 2), t as u64),
        Value::Loc(l) => with(with(sum, 3), l.0 as u64),
    }
}

fn with_row(before: u64, row: &Row, columns: usize) -> u64 {
    row.cells
        .iter()
        .take(columns)
        .fold(before, |sum, v| with_value(sum, *v))
}

fn with_relation(before: u64, r: &Relation) -> u64 {
    r.rows
        .iter()
        .take(r.count)
        .fold(with(before, r.count as u64), |sum, row| {
            with_row(sum, row, r.columns)
        })
}

// ---- nets

fn with_tables(before: u64, tables: &[Table]) -> u64 {
    tables
        .iter()
        .fold(before, |sum, t| with_relation(sum, &t.content))
}

fn with_slot(sum: u64, s: Option<Value>) -> u64 {
    match s {
        None => with(sum, 0),
        Some(v) => with_value(sum, v),
    }
}

fn with_variable(sum: u64, v: &TableVariable) -> u64 {
    match v {
        Some(content) => with_relation(sum, content),
        None => sum,
    }
}

fn with_thread(before: u64, t: &Thread) -> u64 {
    let vars = t.vars.iter().fold(before, |sum, s| with_slot(sum, *s));
    let all = t.relations.iter().fold(vars, with_variable);
    with(all, t.depth as u64)
}

pub fn with_net(before: u64, net: Net) -> u64 {
    let tables = with_tables(before, &net.tables[..net.tablecount.min(8)]);
    net.threads
        .iter()
        .take(net.threadcount)
        .fold(tables, with_thread)
}

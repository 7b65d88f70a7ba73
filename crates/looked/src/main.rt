// For tests, held to the second engine: reads a file of records on standard input, carries out its picks, and prints how matching looks at rows in the net that is left.
// A line for each thread, node with a template and table: their places, and for each row how many fields were looked at, with + where the row matches, else -.
#![tactic(auto)]

ghost use Rattle.std.specs.Prelude.{◌≤◌};

use nets::Net;
use nets::kinds::{has_test, is_loop};
use print_lines::buffer::Buffered;
use print_lines::numbers::put_decimal;
use print_loaded::run_program;
use row_match::match_row;
use rows::Relation;
use runs::bytes::run_bytes;
use std::io;
use std::io::Write;
use std::process::ExitCode;
use values::{Operand, Vars};

// A number behind a blank.
fn put_place(out: &mut impl Write, n: usize) -> io::Result<()> {
    write!(out, " ")?;
    put_decimal(out, n as u64)
}

// Each row of a relation.
fn put_looks(
    out: &mut impl Write,
    template: &[Operand],
    vars: Vars,
    r: &Relation,
) -> io::Result<()> {
    for row in r.rows.iter().take(r.count) {
        let m = match_row(template, vars, row.values(r.columns.min(4)));
        let sign = if m.matches { '+' } else { '-' };
        put_place(out, m.looked)?;
        write!(out, "{sign}")?;
    }
    writeln!(out)
}

// Each table, for one thread and node. Every print_ function gives an error where not all of it was written.
fn print_tables(
    rt: &impl Print,
    net: &Net,
    thread: usize,
    number: usize,
    template: &[Operand],
    vars: Vars,
) -> io::Result<()> {
    let mut out = Buffered::new(rt);
    for (i, table) in net.tables.iter().take(net.tablecount).enumerate() {
        write!(out, "looked")?;
        put_place(&mut out, thread)?;
        put_place(&mut out, number)?;
        put_place(&mut out, i)?;
        put_looks(&mut out, template, vars, &table.content)?;
    }
    out.flush()
}

fn has_template(kind: u8) -> bool {
    has_test(kind) | is_loop(kind)
}

fn print_nodes(rt: &impl Print, net: &Net, thread: usize, vars: Vars) -> io::Result<()> {
    for (number, node) in net.nodes.iter().take(net.nodecount).enumerate() {
        let template = node.selector.template;
        if has_template(node.kind) && template.count <= 4 {
            print_tables(rt, net, thread, number, template.used(), vars)?;
        }
    }
    Ok(())
}

fn print_net(rt: &impl Print, net: &Net) -> io::Result<()> {
    for (i, thread) in net.threads.iter().take(net.threadcount).enumerate() {
        print_nodes(rt, net, i, thread.vars)?;
    }
    Ok(())
}

fn main(rt: HostRuntime) -> ExitCode {
    run_program(&rt, &mut rt.stdin(), "looked", |net, picks| {
        print_net(&rt, &run_bytes(net, picks).net)
    })
}

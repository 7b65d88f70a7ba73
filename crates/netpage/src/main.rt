// Reads a file of records on standard input, carries out its picks, and prints the page of each table left.
#![tactic(auto)]

ghost use Rattle.std.specs.Prelude.{◌≡◌, T, map};
ghost use Rattle.std.specs.List.{list_all};
ghost use Rattle.rows.specs.View.{relation_of, Shaped};
ghost use Rattle.nets.specs.Sound.{rows_ok, table_ok, sound};
ghost use Rattle.nets.specs.Accounts.{after};
ghost use Rattle.nets.specs.View.{table_of, view};
ghost use Rattle.step_bytes.specs.PickBytes.{picks_in};

use call_run::run_picks;
use nets::{Net, Table};
use page_lines::lines::{page_size, put_page};
use print_lines::buffer::Buffered;
use print_lines::lines::put_table_line;
use print_loaded::run_program;
use rows::Relation;
use std::io;
use std::io::Write;
use std::process::ExitCode;

// The length of the longest page, which has sixteen rows.
const LONGEST: usize = 901;

// A table's page, by way of a space that has room for any.
fn put_table_page(out: &mut impl Write, content: Relation) -> io::Result<()>
    requires { Shaped content × T (rows_ok (relation_of content).rows) }
{
    let mut space = [0u8; LONGEST];
    let page = &mut space[..page_size(content)];
    put_page(page, content);
    out.write_all(page)
}

// The line of each table, and its page.
fn put_tables(out: &mut impl Write, tables: &[Table]) -> io::Result<()>
    requires { T (list_all table_ok (map table_of tables.now)) }
{
    for t in tables {
        put_table_line(out, t.site, t.name, t.content.count)?;
        put_table_page(out, t.content)?;
    }
    Ok(())
}

// What all picks leave.
fn run(start: Net, picks: &[u8]) -> Net
    requires { T (sound (view start)) }
    ensures { (view result ≡ after (view start) (picks_in picks.now)) × T (sound (view result)) }
{
    run_picks(start, picks)
}

// Gives an error where not all of it was written.
fn print_run(rt: &impl Print, start: Net, picks: &[u8]) -> io::Result<()>
    requires { T (sound (view start)) }
{
    let left = run(start, picks);
    let mut out = Buffered::new(rt);
    let tables = left.tables;
    put_tables(&mut out, &tables[..left.tablecount])?;
    out.flush()
}

fn main(rt: HostRuntime) -> ExitCode {
    run_program(&rt, &mut rt.stdin(), "netpage", |net, picks| {
        print_run(&rt, net, picks)
    })
}

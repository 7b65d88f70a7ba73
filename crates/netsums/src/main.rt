// Reads a file of records on standard input, runs its picks as one run, and prints the sums of the counts and then the tables left.
#![tactic(auto)]

ghost use Rattle.step_bytes.specs.PickBytes.{picks_in};
ghost use Rattle.runs.specs.Runs.{RunIs};

use nets::Net;
use print_lines::buffer::Buffered;
use print_lines::lines::put_tables;
use print_lines::numbers::put_decimal;
use print_loaded::run_program;
use run_state::Ran;
use runs::bytes::run_bytes;
use std::io;
use std::io::Write;
use std::process::ExitCode;
use value_totals::Total;

// The high half of a sum stands there where it counts.
fn put_total(out: &mut impl Write, t: Total) -> io::Result<()> {
    if t.high != 0 {
        put_decimal(out, t.high)?;
        write!(out, " * 2^64 + ")?;
    }
    put_decimal(out, t.low)
}

// Gives an error where not all of it was written.
fn print_ran(rt: &impl Print, ran: Ran) -> io::Result<()> {
    let mut out = Buffered::new(rt);
    write!(out, "run ")?;
    put_total(&mut out, ran.added)?;
    write!(out, " ")?;
    put_total(&mut out, ran.taken)?;
    writeln!(out)?;
    let tables = ran.net.tables;
    put_tables(&mut out, &tables[..ran.net.tablecount.min(8)])?;
    out.flush()
}

// All picks as one run.
fn run_list(net: Net, picks: &[u8]) -> Ran
    ensures { RunIs net (picks_in picks.now) result }
{
    run_bytes(net, picks)
}

fn main(rt: HostRuntime) -> ExitCode {
    run_program(&rt, &mut rt.stdin(), "netsums", |net, picks| {
        print_ran(&rt, run_list(net, picks))
    })
}

// Reads a file of records on standard input, carries out its picks, and prints each pick's answer and then the tables left.
#![tactic(auto)]

ghost use Rattle.std.specs.Prelude.{◌≡◌, ◌*◌, ◌≤◌, T, length, take};
ghost use Rattle.nets.specs.Sound.{sound};
ghost use Rattle.nets.specs.Accounts.{after};
ghost use Rattle.nets.specs.View.{view};
ghost use Rattle.step_bytes.specs.PickBytes.{picks_in};
ghost use Rattle.step_bytes.specs.AnswerBytes.{answers_put};
ghost use Rattle.step_left.specs.Leaving.{left_by};

use nets::Net;
use print_lines::buffer::Buffered;
use print_lines::lines::{put_picks, put_tables};
use print_loaded::run_program;
use std::io;
use std::io::Write;
use std::process::ExitCode;
use step_bytes::answers::ANSWER;
use step_left::Carried;
use step_picks::carry_out;

// What all picks leave, and their answers.
fn run(start: Net, picks: &[u8], answers: &mut [u8; 6144]) -> Carried
    requires { T (sound (view start)) × (length picks.now ≤ 512) }
    ensures { (view (left_by start result) ≡ after (view start) (picks_in picks.now)) × (take (length (picks_in picks.now) * 24) answers.new ≡ answers_put (view start) (picks_in picks.now)) }
{
    carry_out(start, picks, answers)
}

// Gives an error where not all of it was written.
fn print_run(rt: &impl Print, start: Net, picks: &[u8]) -> io::Result<()>
    requires { T (sound (view start)) × (length picks.now ≤ 512) }
{
    let mut answers = [0u8; 6144];
    let left = run(start, picks, &mut answers);
    let mut out = Buffered::new(rt);
    put_picks(&mut out, &answers[..picks.len() / 2 * ANSWER])?;
    let tables = left.tables;
    put_tables(&mut out, &tables[..left.tablecount.min(8)])?;
    out.flush()
}

fn main(rt: HostRuntime) -> ExitCode {
    run_program(&rt, &mut rt.stdin(), "netrun", |net, picks| {
        print_run(&rt, net, picks)
    })
}

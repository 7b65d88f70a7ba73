// A program that reads a file of records on standard input, loads it, and prints what comes of the net and of the file's own picks.
#![tactic(auto)]

ghost use Rattle.std.specs.Prelude.{◌≡◌, ◌≤◌, T, ℕ, List, length, take};
ghost use Rattle.std.specs.Borrow.{Bor};
ghost use Rattle.nets.specs.declared.Net.{Net};
ghost use Rattle.nets.specs.Sound.{sound};
ghost use Rattle.nets.specs.View.{view};
ghost use Rattle.step_bytes.specs.PickBytes.{picks_in};

use load::{length_fault, load};
use nets::{Net, Pick};
use print_lines::arguments::has_argument;
use print_lines::endings::{status_after, tell_failed};
use print_lines::faults::print_refused;
use print_lines::input::read_input;
use std::env::Env;
use std::io;
use std::io::Read;
use std::process::ExitCode;
use step_bytes::picks::pick_bytes;

// The first `count` picks as bytes, two for each, in a space that is lent: here the array and the count that loading gives become a slice.
fn lent(bytes: &mut [u8; 512], picks: [Pick; 256], count: usize) -> &[u8]
    requires { count ≤ 256 }
    ensures picks { picks_in result.now ≡ take count picks }
    ensures few { length result.now ≤ 512 }
{
    *bytes = pick_bytes(picks);
    &bytes[..count * 2]
}

// Prints with the net and the picks of an accepted file, or the line of the first fault. Gives an error where not all of it was written.
fn print_file<F: FnOnce(Net, &[u8]) -> io::Result<()>>(
    rt: &(impl Print + Eprint),
    file: &[u8],
    print: F,
) -> io::Result<()>
    requires { (net : Net) (picks : Bor (List ℕ)) → T (sound (view net)) → length picks.now ≤ 512 → F.pre print net picks }
{
    let loaded = load(file);
    match loaded.verdict {
        Ok(()) => {
            let mut bytes = [0u8; 512];
            let net = loaded.net;
            print(
                net,
                lent(&mut bytes, loaded.picks, loaded.pickcount.min(256)),
            )
        }
        Err(fault) => print_refused(rt, file, fault.number, fault.place),
    }
}

// An input that fills the buffer is too long for a file, whatever its bytes.
fn print_input<F: FnOnce(Net, &[u8]) -> io::Result<()>>(
    rt: &(impl Print + Eprint),
    space: &[u8; 65536],
    read: usize,
    print: F,
) -> io::Result<()>
    requires { (net : Net) (picks : Bor (List ℕ)) → T (sound (view net)) → length picks.now ≤ 512 → F.pre print net picks }
{
    if read < space.len() {
        return print_file(rt, &space[..read], print);
    }
    match length_fault(read) {
        Ok(()) => Ok(()),
        Err(fault) => print_refused(rt, space, fault.number, fault.place),
    }
}

// The whole program, but for what is printed of a net and picks.
pub fn run_program<F: FnOnce(Net, &[u8]) -> io::Result<()>>(
    rt: &(impl Env + Print + Eprint),
    from: &mut impl Read,
    name: &str,
    print: F,
) -> ExitCode
    requires { (net : Net) (picks : Bor (List ℕ)) → T (sound (view net)) → length picks.now ≤ 512 → F.pre print net picks }
{
    if has_argument(rt, 1) {
        let _ = eprintln!(rt;
            "{name} takes no arguments: it reads a file of records on standard input, as in: {name} < NET.net"
        );
        return ExitCode::SUCCESS;
    }
    let mut space = [0u8; 65536];
    match read_input(from, &mut space) {
        Ok(read) => status_after(
            rt,
            print_input(rt, &space, read, print),
            format_args!("{name}: standard output could not be written"),
        ),
        Err(failed) => {
            tell_failed(
                rt,
                format_args!(
                    "{name}: nothing was run: standard input could not be read to its end"
                ),
                failed,
            );
            ExitCode::SUCCESS
        }
    }
}

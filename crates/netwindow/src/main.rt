// Reads a stream of records on standard input, piece by piece, and answers each: sum, least and largest of a column over the last W rows.
#![tactic(auto)]

use crate::numbers::argument;
use crate::stream::{Failed, print_answers};
use print_lines::arguments::has_argument;
use print_lines::endings::{status_after, tell_failed};
use std::io::Read;
use std::process::ExitCode;
use window::begin;

mod lines;
mod numbers;
mod stream;

const UNWRITTEN: &str = "netwindow: standard output could not be written";

fn print_usage(rt: &impl Eprint) -> ExitCode {
    let _ = eprintln!(rt;
        "usage: netwindow W COLUMN < STREAM, where W, the rows of the window, and COLUMN, from 0 on, are numbers in decimal"
    );
    ExitCode::SUCCESS
}

fn print_window(
    rt: &(impl Print + Eprint),
    from: &mut impl Read,
    width: usize,
    column: usize,
) -> ExitCode {
    let begun = begin(width, column);
    if begun.beginning.is_err() {
        return status_after(rt, rt.write_all(b"window no 23\n"), UNWRITTEN);
    }
    match print_answers(rt, from, begun.window) {
        Ok(()) => ExitCode::SUCCESS,
        Err(Failed::Unread(why)) => {
            tell_failed(
                rt,
                "netwindow: standard input could not be read to its end",
                why,
            );
            ExitCode::SUCCESS
        }
        Err(Failed::Unwritten(why)) => status_after(rt, Err(why), UNWRITTEN),
    }
}

fn main(rt: HostRuntime) -> ExitCode {
    if !has_argument(&rt, 2) | has_argument(&rt, 3) {
        return print_usage(&rt);
    }
    match (argument(&rt, 1), argument(&rt, 2)) {
        (Some(width), Some(column)) => print_window(&rt, &mut rt.stdin(), width, column),
        _ => print_usage(&rt),
    }
}

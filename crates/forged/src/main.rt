// Nets that no file gives: one clause of soundness broken in each, and sound ones with loop entries, bindings and whatever lies past the counts.
// Each line of standard input is one net: 24 bytes as hexadecimal digits, a blank, and its name.
#![tactic(auto)]

mod lines;
mod trying;

use lines::try_lines;
use print_lines::input::read_full;
use std::io;

fn main(rt: HostRuntime) -> io::Result<()> {
    let mut input = [0u8; 65536];
    let n = read_full(&mut rt.stdin(), &mut input);
    try_lines(&rt, &input[..n])
}

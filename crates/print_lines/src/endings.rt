// How a program ends whose input could not be read, or whose output could not be written: standard error has the line.
ghost use Rattle.std.specs.Prelude.{T, IsErr};

use std::process::ExitCode;
use std::{fmt, io};

// What failed, and the system's words for it where it gave any.
pub fn tell_failed(rt: &impl Eprint, what: impl fmt::Display + Drop, failed: Option<io::Error>) {
    let _ = match failed {
        Some(why) => eprintln!(rt; "{what}: {why}"),
        None => eprintln!(rt; "{what}"),
    };
}

// What a shell sees of a program that a pipe with no reader ends.
const NO_READER: u8 = 141;

// Whether nobody reads the pipe that was written to. The program says nothing more then, as one that the system's signal ends.
pub fn is_unread(written: &io::Result<()>) -> bool
    ensures { T result → IsErr written.now }
{
    matches!(written, Err(why) if why.kind() == io::ErrorKind::BrokenPipe)
}

// The status after the output: 0 also where it could not be written, and then standard error says so; where nobody reads the pipe, nothing is said.
pub fn status_after(
    rt: &impl Eprint,
    written: io::Result<()>,
    what: impl fmt::Display + Drop,
) -> ExitCode {
    if is_unread(&written) {
        return ExitCode::from(NO_READER);
    }
    if let Err(why) = written {
        tell_failed(rt, what, Some(why));
    }
    ExitCode::SUCCESS
}

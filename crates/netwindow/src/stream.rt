// A stream of any length, read in pieces: all that is kept of it is the window and the start of a record whose end is still to come.
ghost use Rattle.std.specs.Prelude.{◌≡◌, ◌≤◌, ◌<◌, length};

use crate::lines::put_line;
use print_lines::buffer::Buffered;
use print_lines::input::read_from;
use record_bytes::RECORD;
use std::io;
use std::io::{Read, Write};
use window::{Window, take};

// Unread where a read failed; with no error where the tries are used up.
#[derive(Clone, Copy)]
pub enum Failed {
    Unread(Option<io::Error>),
    Unwritten(io::Error),
}

// What is reached of a stream: the window that the next record meets, the place of that record, and the lines still to be written.
#[derive(Drop)]
struct Reached<'a, P> {
    window: Window,
    place: u64,
    lines: Buffered<'a, P>,
}

impl<'a, P: Print> Reached<'a, P> {
    fn take_record(&mut self, record: &[u8]) -> io::Result<()> {
        let taken = take(self.window, record);
        put_line(&mut self.lines, self.place, taken.answer)?;
        self.window = taken.window;
        // No stream is so long that the places end.
        self.place = self.place.saturating_add(1);
        Ok(())
    }

    // Each whole record of a piece. The lines go out with every piece, so that whoever sends records slowly sees each answer.
    fn take_piece(&mut self, piece: &[u8]) -> io::Result<()> {
        for record in piece.chunks_exact(RECORD) {
            self.take_record(record)?;
        }
        self.lines.flush()
    }

    // The end of the stream: what is left of it is a record too.
    fn take_last(&mut self, last: &[u8]) -> io::Result<()> {
        if !last.is_empty() {
            self.take_record(last)?;
        }
        self.lines.flush()
    }
}

// Moves what is left behind the whole records of a piece to the front, and gives how much that is.
fn keep_rest(space: &mut [u8], filled: usize) -> usize
    requires { filled ≤ length space.old }
    ensures { (result < 104) × (length space.new ≡ length space.old) }
{
    let left = filled % RECORD;
    space.copy_within(filled - left..filled, 0);
    left
}

// A proved loop has to end, so it counts its tries up to a number that no run reaches.
const TRIES: usize = 1152921504606846976;

fn print_stream(
    rt: &impl Print,
    from: &mut impl Read,
    window: Window,
    space: &mut [u8; 65536],
) -> Result<(), Failed> {
    let mut reached = Reached {
        window,
        place: 0,
        lines: Buffered::new(rt),
    };
    let mut held = 0;
    for _ in 0..TRIES {
        let got = read_from(from, space, held).map_err(|why| Failed::Unread(Some(why)))?;
        if got == 0 {
            return reached.take_last(&space[..held]).map_err(Failed::Unwritten);
        }
        reached
            .take_piece(&space[..held + got])
            .map_err(Failed::Unwritten)?;
        held = keep_rest(space, held + got);
    }
    Err(Failed::Unread(None))
}

pub fn print_answers(rt: &impl Print, from: &mut impl Read, window: Window) -> Result<(), Failed> {
    let mut space = [0u8; 65536];
    print_stream(rt, from, window, &mut space)
}

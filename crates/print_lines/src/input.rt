// Standard input, read to its end.
ghost use Rattle.std.specs.Prelude.{◌≡◌, ◌+◌, ◌≤◌, length, IfOk};

use std::io;
use std::io::Read;

// Reads behind the first `at` bytes, and gives how many more there are.
pub fn read_from(from: &mut impl Read, space: &mut [u8], at: usize) -> io::Result<usize>
    requires { at ≤ length space.old }
    ensures count { IfOk result (λ n. at + n ≤ length space.new) }
    ensures kept { length space.new ≡ length space.old }
{
    from.read(&mut space[at..])
}

// Where the next bytes go: behind those read. Past the buffer's end bytes are only counted, over its second half.
fn next_place(read: usize) -> usize
    ensures { result ≤ 65536 }
{
    if read < 65536 {
        return read;
    }
    32768
}

// Reads into the buffer what fits, and counts the rest. A read that fails is no end: the error says why one did, or nothing where the tries are used up.
// A proved loop has to end, so it has more tries than any run uses up.
pub fn read_input(from: &mut impl Read, space: &mut [u8; 65536]) -> Result<usize, Option<io::Error>>
    ensures { IfOk result (λ n. n ≤ 72057594037927936) }
{
    let mut read: usize = 0;
    for _i in 0..1099511627776u64 {
        let got = read_from(from, space, next_place(read)).map_err(Some)?;
        if got == 0 {
            return Ok(read);
        }
        read += got;
    }
    Err(None)
}

// Reads until the space is full, the input ends or a read fails, and gives how many bytes were read.
pub fn read_full(from: &mut impl Read, space: &mut [u8]) -> usize
    ensures count { result ≤ length space.new }
    ensures kept { length space.new ≡ length space.old }
{
    let mut done = 0;
    // No `for`: each read steps on by as many bytes as it read.
    while done < space.len() {
        let got = read_from(from, space, done).unwrap_or(0);
        if got == 0 {
            return done;
        }
        done += got;
    }
    done
}

// Standard output by way of a buffer of fixed size.
ghost use Rattle.std.specs.Prelude.{◌≤◌, ℕ};

use std::io;

// Where nothing may be allocated, this stands for a BufWriter. It is written out each time it is full, and by `flush`.
#[derive(Drop)]
pub struct Buffered<'a, P> {
    to: &'a P,
    bytes: [u8; 4096],
    held: usize,
    ghost held_fits: { held ≤ 4096 },
}

impl<'a, P: Print> Buffered<'a, P> {
    pub fn new(to: &'a P) -> Self {
        Buffered {
            to,
            bytes: [0; 4096],
            held: 0,
        }
    }
}

impl<'a, P: Print> io::Write for Buffered<'a, P> {
    fn write(&mut self, bytes: &[u8]) -> io::Result<usize> {
        if self.held == 4096 {
            self.flush()?;
        }
        let n = bytes.len().min(4096 - self.held);
        self.bytes[self.held..self.held + n].copy_from_slice(&bytes[..n]);
        self.held += n;
        Ok(n)
    }

    fn flush(&mut self) -> io::Result<()> {
        self.to.write_all(&self.bytes[..self.held])?;
        self.held = 0;
        Ok(())
    }
}

//! The standard input of the process. It does not tell what bytes come.
ghost use Rattle.std.specs.Prelude.{◌≡◌, ◌≤◌, None, IfOk, length};

use crate::copying::copy_front;
use crate::{Failed, Source};
use std::io;
use std::io::Read;
use std::marker::Model;
use std::rt::Stdin;

/// How many bytes are asked of the system at once.
const READ_AHEAD: usize = 8192;

/// The standard input, seen as its count of faults. Bytes that came and were not read yet wait in a buffer.
#[derive(Drop)]
pub struct StdSource {
    input: Stdin,
    buffer: [u8; READ_AHEAD],
    from: usize,
    to: usize,
    faults: u64,
}

impl Model for StdSource {
    ghost use Rattle.std.specs.Prelude.{ℕ, ◌≤◌};

    ghost Value = { ℕ };

    ghost view = { λ s. s.faults };

    ghost invariant = { λ s. (s.from ≤ s.to) × (s.to ≤ 8192) };
}

impl StdSource {
    /// The standard input, of which nothing is read yet.
    pub fn new(rt: HostRuntime) -> Self
        ensures { result ≡ 0 }
    {
        StdSource {
            input: rt.stdin(),
            buffer: [0; READ_AHEAD],
            from: 0,
            to: 0,
            faults: 0,
        }
    }
}

/// One read, which is made again where a signal interrupts it.
fn read_once(input: &mut Stdin, into: &mut [u8]) -> io::Result<usize>
    ensures { IfOk result (λ count. count ≤ length into.old) }
{
    for _ in 0..u64::MAX {
        match input.read(into) {
            Err(error) if error.kind() == io::ErrorKind::Interrupted => {}
            read => return read,
        }
    }
    Err(io::Error::from(io::ErrorKind::Interrupted))
}

impl Source for StdSource {
    ghost left = { λ _. None };

    ghost faults = { λ s. s };

    fn read(&mut self, into: &mut [u8]) -> Result<usize, Failed> {
        if self.from == self.to && !into.is_empty() {
            match read_once(&mut self.input, &mut self.buffer) {
                Ok(count) => {
                    self.from = 0;
                    self.to = count;
                }
                Err(_) => {
                    self.faults = self.faults.saturating_add(1);
                    return Err(Failed);
                }
            }
        }
        let count = copy_front(&self.buffer[self.from..self.to], into);
        self.from += count;
        Ok(count)
    }
}

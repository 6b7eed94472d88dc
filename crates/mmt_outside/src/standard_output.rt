//! The standard output of the process. It does not tell what bytes went out.
ghost use Rattle.std.specs.Prelude.{◌≡◌, ◌≤◌, None, IfOk, length};
ghost use Rattle.mmt_outside.specs.Faults.{Rose};

use crate::{Failed, Sink};
use std::io;
use std::io::Write;
use std::marker::Model;
use std::rt::Stdout;

/// The standard output, seen as its count of faults.
#[derive(Drop)]
pub struct StdSink {
    output: Stdout,
    faults: u64,
}

impl Model for StdSink {
    ghost use Rattle.std.specs.Prelude.{ℕ};

    ghost Value = { ℕ };

    ghost view = { λ s. s.faults };
}

impl StdSink {
    /// The standard output, to which nothing is written yet.
    pub fn new(rt: HostRuntime) -> Self
        ensures { result ≡ 0 }
    {
        StdSink {
            output: rt.stdout(),
            faults: 0,
        }
    }

    fn fault(&mut self) -> Failed
        ensures later { self.old ≤ self.new }
        ensures rose { Rose self.old self.new }
    {
        self.faults = self.faults.saturating_add(1);
        Failed
    }
}

/// One write, which is made again where a signal interrupts it.
fn write_once(output: &mut Stdout, piece: &[u8]) -> io::Result<usize>
    ensures { IfOk result (λ count. count ≤ length piece.now) }
{
    for _ in 0..u64::MAX {
        match output.write(piece) {
            Err(error) if error.kind() == io::ErrorKind::Interrupted => {}
            written => return written,
        }
    }
    Err(io::Error::from(io::ErrorKind::Interrupted))
}

impl Sink for StdSink {
    ghost taken = { λ _. None };

    ghost faults = { λ s. s };

    fn write(&mut self, piece: &[u8]) -> Result<usize, Failed> {
        match write_once(&mut self.output, piece) {
            Ok(count) if count > 0 || piece.is_empty() => Ok(count),
            _ => Err(self.fault()),
        }
    }

    fn flush(&mut self) -> Result<(), Failed> {
        match self.output.flush() {
            Ok(()) => Ok(()),
            Err(_) => Err(self.fault()),
        }
    }
}

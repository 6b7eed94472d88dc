//! The last line of an output.
ghost use Rattle.std.specs.Prelude.{◌≡◌, OnErr, OnOk};
ghost use Rattle.mmt_outside.specs.Bytes.{appended, flushed, TookPrefix};
ghost use Rattle.mmt_outside.specs.Faults.{HasCause};
ghost use Rattle.run_status.specs.Flushed.{IsFlushed};

use mmt_outside::{Failed, Sink, write_all};

/// Writes the last line, and flushes. After an error a first part of the line may be written.
pub fn write_last<K: Sink>(sink: &mut K, line: &[u8]) -> Result<(), Failed>
    ensures all { OnOk result (K.taken sink.new ≡ flushed (appended (K.taken sink.old) line.now)) }
    ensures flush { OnOk result (IsFlushed (K.taken sink.new)) }
    ensures failed { OnErr result (TookPrefix (K.taken sink.old) (K.taken sink.new) line.now) }
    ensures cause { HasCause (K.faults sink.old) (K.faults sink.new) result }
{
    write_all(sink, line)?;
    sink.flush()
}

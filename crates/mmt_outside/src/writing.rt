//! A piece of bytes written as a whole.
ghost use Rattle.std.specs.Prelude.{◌≡◌, OnOk, OnErr};
ghost use Rattle.mmt_outside.specs.Bytes.{appended, TookPrefix};
ghost use Rattle.mmt_outside.specs.Faults.{HasCause};

use crate::{Failed, Sink};

/// Writes until the sink has taken all of the bytes. It does not flush.
pub fn write_all<K: Sink>(sink: &mut K, bytes: &[u8]) -> Result<(), Failed>
    ensures all { OnOk result (K.taken sink.new ≡ appended (K.taken sink.old) bytes.now) }
    ensures failed { OnErr result (TookPrefix (K.taken sink.old) (K.taken sink.new) bytes.now) }
    ensures cause { HasCause (K.faults sink.old) (K.faults sink.new) result }
{
    let mut done = 0;
    while done < bytes.len() {
        done += sink.write(&bytes[done..])?;
    }
    Ok(())
}

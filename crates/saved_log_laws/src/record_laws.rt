//! Records: written and read.

ghost use Rattle.saved_log_laws.specs.RecordLaws.{WrittenRecordIsRead, ReadRecordIsWritten, RecordIsAFront};

/// What is written reads back, whatever stands behind it, and among bytes what is read was written so: an edit has one record. A record
/// is decided by its own bytes.
pub fn law_records()
    ensures written { WrittenRecordIsRead }
    ensures read { ReadRecordIsWritten }
    ensures front { RecordIsAFront }
{}

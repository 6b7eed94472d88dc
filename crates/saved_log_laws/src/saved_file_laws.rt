//! Files: gates, what is written, the last gate, and damage.

ghost use Rattle.saved_log_laws.specs.SavedFileLaws.{ClosedGateEnds, OpenGateGoesOn, GatesSuffice, WrittenFileIsRead, ShortFileHasNoEdits, OtherHeadingIsDamage, FileHasLastGate, LastGateIsRead, NewFileHasLastGate, NextGateIsLast, DamageIsAtItsGate, GateIsDamage};

/// A closed gate ends the edits; an open one goes on over its record to the next gate; no file has more gates than are looked at.
pub fn law_gates()
    ensures closed { ClosedGateEnds }
    ensures open { OpenGateGoesOn }
    ensures bound { GatesSuffice }
{}

/// A file that is written for a list of edits holds them and no others, whatever stands behind it. One that is no longer than a heading and
/// a gate has none.
pub fn law_written_files()
    ensures written { WrittenFileIsRead }
    ensures short { ShortFileHasNoEdits }
{}

/// A file with edits that is longer than its heading and a gate, and a new one, has a last gate, which is closed and has these edits in
/// front. Opened before a record
/// and a closed gate it leads to that gate, which is the last one then.
pub fn law_last_gates()
    ensures found { FileHasLastGate }
    ensures read { LastGateIsRead }
    ensures new { NewFileHasLastGate }
    ensures next { NextGateIsLast }
{}

/// A file is damaged exactly where it has another heading, or at an open gate behind edits that are whole, with no record and gate behind it
/// or with an edit that is not made.
pub fn law_damage()
    ensures heading { OtherHeadingIsDamage }
    ensures found { DamageIsAtItsGate }
    ensures gate { GateIsDamage }
{}

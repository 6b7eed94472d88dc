//! The log and the library that it leaves.

ghost use Rattle.edit_log_laws.specs.LogLaws.{LogLeavesLibrary, NamesArePresent, EditDecidesText, EditDecidesStamp, StampIsOfText, StampsArePast, LimitsAreKept, EditsStandAtVersions, NoEditMadeOthers, NamesStandInOrder, NoNameStandsPastLast};
ghost use Rattle.edit_log_laws.specs.Limits.{LogLimits, InputLimits};

/// A log leaves a library, whose names are the present ones. An edit decides the text of its name alone.
pub fn law_library()
    ensures library { LogLeavesLibrary }
    ensures names { NamesArePresent }
    ensures text { EditDecidesText }
{}

/// An edit gives its version to its name alone; the edit at the stamp of a present name put its text; and no stamp is greater
/// than the version.
pub fn law_stamps()
    ensures stamp { EditDecidesStamp }
    ensures text { StampIsOfText }
    ensures past { StampsArePast }
{}

/// A log that keeps to the limits keeps to them after any edit.
pub fn law_limits()
    ensures { LimitsAreKept }
{}

/// Versions are counted from 1 and places of names from 0.
pub fn law_places()
    ensures edits { EditsStandAtVersions }
    ensures no_other { NoEditMadeOthers }
    ensures names { NamesStandInOrder }
    ensures no_more { NoNameStandsPastLast }
{}

/// The limits are these numbers.
pub fn law_numbers()
    ensures log { LogLimits }
    ensures input { InputLimits }
{}

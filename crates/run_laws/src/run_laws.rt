//! Laws of what a run prints.

ghost use Rattle.run_laws.specs.RunLaws.{OutputIsInOrder, LongerBeginsWithIt, TellingsAreGrounded, FolderTellingsAreGrounded, CommandsTellAll, FoldersTellAll, BeginningsTellTheirs, GeneratorsTellAll, KeptTextsAreAlike, ShortTextsAreKept};

/// The output of a script is the lines of its commands in order, and then the line of its fault, if it has one, and its log
/// is that of its edits in order; an input that begins with whole commands has an output and a log that begin with theirs.
/// What its lines tell of a grounded module is told at a version of its log.
pub fn law_script()
    ensures order { OutputIsInOrder }
    ensures longer { LongerBeginsWithIt }
    ensures told { TellingsAreGrounded }
{}

/// What the lines of a folder tell is told at a version of its log; and they tell of each grounded module.
pub fn law_folder()
    ensures grounded { FolderTellingsAreGrounded }
    ensures all { FoldersTellAll }
{}

/// What commands tell of: each line of a grounded module tells it; and what is told where so many bytes are written.
pub fn law_telling()
    ensures all { CommandsTellAll }
    ensures beginnings { BeginningsTellTheirs }
    ensures generator { GeneratorsTellAll }
{}

/// What is kept of a text that is put makes the same of the log, and the same line, as the whole text.
pub fn law_kept()
    ensures alike { KeptTextsAreAlike }
    ensures whole { ShortTextsAreKept }
{}

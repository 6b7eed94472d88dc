//! Places of trees and of faults, and places in files.

ghost use Rattle.place_laws.specs.FilePlaceLaws.{ColumnsAreTheSame, ColumnsGoOn, LinesGoOn};
ghost use Rattle.place_laws.specs.PlaceLaws.{ReadingStandsWithin};

/// Each span of a tree that is read lies within its text, and a place where reading stops is not past its end.
pub fn law_places()
    ensures { ReadingStandsWithin }
{}

/// A text that stands in a file: the line of a place in the file, and its column, from those of the place in the text and of
/// the text's first byte.
pub fn law_file_places()
    ensures lines { LinesGoOn }
    ensures columns { ColumnsGoOn }
    ensures same { ColumnsAreTheSame }
{}

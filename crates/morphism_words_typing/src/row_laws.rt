//! Rows of words over typed faces.

ghost use Rattle.morphism_words_typing.specs.TypedLinks.{RowsAreTyped};

/// A row of words means a link with a typed map.
pub fn law_typed_rows()
    ensures { RowsAreTyped }
{}

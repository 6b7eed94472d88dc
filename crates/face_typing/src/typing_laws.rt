//! Maps of links over typed faces.

ghost use Rattle.face_typing.specs.TypedMapsOfLinks.{LinksHaveTypedMaps};

/// The map of a link between known theories is typed, whatever its assignments are, if they pass all tests.
pub fn law_typed_links()
    ensures { LinksHaveTypedMaps }
{}

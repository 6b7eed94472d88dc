//! Accepted theories flatten to well-typed signatures, and accepted views and structures carry typing.

ghost use Rattle.face_typing.specs.Below.TypedLinks.{CoherentMapsAreProper};
ghost use Rattle.face_typing.specs.FaceTypingLaws.{FacesAreTyped, GroundedKnowTyped, ClosedAreTyped, KnownViewsTranslate, KnownStructuresTranslate, KnownViewsCarryTyping, KnownStructuresCarryTyping, TheoriesFlatten, ViewsCarryTyping, StructuresCarryTyping};
ghost use Rattle.face_typing.specs.BuildingTyping.{BuiltScopesAreTyped, BuiltTheoriesAreTyped, EmptyIsTyped, InclusionsKeepTyped, ConstantsKeepTyped, StructuresKeepTyped, DeclarationsKeepTyped, AllDeclarationsKeepTyped, ViewsAreTyped};
ghost use Rattle.face_typing.specs.JudgedTyping.{JudgedTheoriesAreTyped, JudgedViewsAreTyped};
ghost use Rattle.face_typing.specs.CarryingMaps.{TypedTheoriesFlatten, TypedViewsCarry};

/// In each library the faces of accepted modules are well typed; so an accepted theory flattens to a well-typed signature, and
/// an accepted view, and each structure, carries every typing judgement of its domain to one of its codomain.
pub fn law_typed_faces()
    ensures faces { FacesAreTyped }
    ensures theories { TheoriesFlatten }
    ensures views { ViewsCarryTyping }
    ensures structures { StructuresCarryTyping }
{}

/// So is what a grounded module knows of others, and what is told of any names that are closed under their reach.
pub fn law_typed_knowledge()
    ensures grounded { GroundedKnowTyped }
    ensures closed { ClosedAreTyped }
{}

/// Where all that is known is coherent and well typed, the maps of views and structures are as the laws of typed translation and
/// of composition ask, and their values are proper.
pub fn law_typed_maps()
    ensures proper { CoherentMapsAreProper }
    ensures views { KnownViewsTranslate }
    ensures structures { KnownStructuresTranslate }
{}

/// So views and structures carry typing.
pub fn law_carrying()
    ensures views { KnownViewsCarryTyping }
    ensures structures { KnownStructuresCarryTyping }
{}

/// Where all that is known of others is coherent and well typed, and nothing is known of a theory itself, it is well typed after
/// each of its declarations: it begins so, and an inclusion, a constant and a structure keep it so. The map of a structure that
/// is being declared is typed, and so is the map of a view.
pub fn law_typed_declarations()
    ensures scope { BuiltScopesAreTyped }
    ensures words { BuiltTheoriesAreTyped }
    ensures empty { EmptyIsTyped }
    ensures inclusions { InclusionsKeepTyped }
    ensures constants { ConstantsKeepTyped }
    ensures structures { StructuresKeepTyped }
    ensures declaration { DeclarationsKeepTyped }
    ensures theories { AllDeclarationsKeepTyped }
    ensures views { ViewsAreTyped }
{}

/// So is what a text is accepted as: a theory, or the map of a view.
pub fn law_typed_verdicts()
    ensures theories { JudgedTheoriesAreTyped }
    ensures views { JudgedViewsAreTyped }
{}

/// Where all that is known is well typed, a theory that is coherent and well typed over it flattens to a well-typed signature, and
/// the map of each of its structures carries typing to it; so does the map of such a view from its domain to its codomain.
pub fn law_carrying_faces()
    ensures theories { TypedTheoriesFlatten }
    ensures views { TypedViewsCarry }
{}

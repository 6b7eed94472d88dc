//! Theories that are told of as accepted flatten to well-typed signatures, and views and structures carry typing.

ghost use Rattle.output_typing.specs.ToldTyping.{AllAreTyped};

/// Whatever is told of modules at versions of a log: in the library of the version an accepted theory flattens to a well-typed
/// signature, and the map of each of its structures is typed and carries typing judgements to it; the map of an accepted view is
/// typed, and carries each typing judgement of its domain to one of its codomain.
pub fn law_told_typing()
    ensures { AllAreTyped }
{}

//! Judgements that are carried along views.

ghost use Rattle.carried_typing.specs.CarriedTyping.{CarriedIsTyping, LibrariesCarryTyping, FacesCarryTyping, FacesCarryAlike};

/// What is carried along an accepted view is the translation of the typing judgement that the text stands for, and is itself a
/// typing judgement of the view's codomain. So it is over all that the verdicts of a library tell, and over what they tell of
/// names that have every present name of the view's reach: there the same is carried.
pub fn law_carried()
    ensures known { CarriedIsTyping }
    ensures libraries { LibrariesCarryTyping }
    ensures faces { FacesCarryTyping }
    ensures alike { FacesCarryAlike }
{}

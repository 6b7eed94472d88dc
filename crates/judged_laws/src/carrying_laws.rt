//! What carrying a judgement along a view comes to.

ghost use Rattle.judged_laws.specs.CarryingLaws.{CarryIsTranslation, FamilyIsIllFirst, ObjectIsIllNext, OnlyViewsCarry, UnreadIsIll, ViewsAreFound};

/// What is carried is the translation, along the view of the name, of the judgement that the text stands for over the view's
/// whole domain; and each such translation is carried.
pub fn law_carry()
    ensures translation { CarryIsTranslation }
{}

/// What is not carried is refused: a name that is no view's, a text that does not read, and then the family before the object.
pub fn law_carry_faults()
    ensures no_view { OnlyViewsCarry }
    ensures view { ViewsAreFound }
    ensures unread { UnreadIsIll }
    ensures family { FamilyIsIllFirst }
    ensures object { ObjectIsIllNext }
{}

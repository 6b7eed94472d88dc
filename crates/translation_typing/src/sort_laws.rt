//! Simple types under translation.

ghost use Rattle.translation_typing.specs.SortedTranslation.{SimpleTypesDecide, AtomicStaysAtomic};

/// The simple type of a translated family depends on that of the family alone, and an atomic family stays atomic.
pub fn law_translation_sorts()
    ensures simple { SimpleTypesDecide }
    ensures atomic { AtomicStaysAtomic }
{}

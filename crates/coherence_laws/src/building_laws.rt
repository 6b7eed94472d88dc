//! A theory that is being built.

ghost use Rattle.coherence_laws.specs.LinksSoFar.{StructuresHoldSoFar, ViewsHoldSoFar};
ghost use Rattle.coherence_laws.specs.BuildingLaws.{BuiltScopesHold, BuiltTheoriesHold, EmptyIsBuilt, InclusionsKeepBuilt, ConstantsKeepBuilt, StructuresKeepBuilt, DeclarationsKeepBuilt, AllDeclarationsKeepBuilt, ViewsAreCoherent};

/// A theory that is being built over coherent faces, which do not have its name, is coherent after each declaration that
/// passes its tests: it begins so, and an inclusion, a constant and a structure keep it so. Its scope holds at each time.
pub fn law_built_theories()
    ensures scope { BuiltScopesHold }
    ensures words { BuiltTheoriesHold }
    ensures empty { EmptyIsBuilt }
    ensures inclusion { InclusionsKeepBuilt }
    ensures constant { ConstantsKeepBuilt }
    ensures structure { StructuresKeepBuilt }
    ensures declaration { DeclarationsKeepBuilt }
    ensures declarations { AllDeclarationsKeepBuilt }
{}

/// The face of a view that passes its tests over coherent faces is coherent.
pub fn law_checked_views()
    ensures { ViewsAreCoherent }
{}

/// While the map of a link is made it is coherent, up to each constant of the domain: into the scope's constants, and those that
/// a structure has induced so far. So what is translated along it holds these alone.
pub fn law_links_so_far()
    ensures structures { StructuresHoldSoFar }
    ensures views { ViewsHoldSoFar }
{}

//! Refused modules.

ghost use Rattle.acceptance_laws.specs.RefusedModules.{RefusedModules, RefusedModulesTold};

/// A name of a library is refused exactly where it is present and no face makes it an accepted theory or view: over what the
/// module knows of others, and over all that the library's verdicts tell.
pub fn law_refusals()
    ensures known { RefusedModules }
    ensures told { RefusedModulesTold }
{}

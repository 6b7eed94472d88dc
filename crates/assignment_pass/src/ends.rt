//! The ends of the links that assignments name.
ghost use Rattle.std.specs.Prelude.{◌≡◌};
ghost use Rattle.link_meaning.specs.Assignments as passes;
ghost use Rattle.mmt_interface.specs.Readings.{environment_of};
ghost use Rattle.link_setting.specs.Below.Readings.{read_link};
ghost use Rattle.link_setting.specs.Readings.{read_setting};

use lf_terms::Name;
use link_setting::{Link, Setting, includes, sees};
use mmt_interface::Faces;

/// Whether a theory is the other one, or includes it.
pub fn is_or_includes(faces: &Faces, theory: &Name, other: &Name) -> bool
    ensures { result ≡ passes.is_or_includes (environment_of faces.now) theory.now other.now }
{
    theory == other || includes(faces, theory, other)
}

/// Whether the codomain of a link is the theory, or includes it so far.
pub fn codomain_sees(setting: &Setting<'_>, theory: &Name) -> bool
    ensures { result ≡ passes.codomain_sees (read_setting setting.now) theory.now }
{
    setting.codomain == theory || sees(setting.scope.includes, theory)
}

/// Whether a link may cover theories: it leads from one that the domain includes into the codomain, or what that includes.
pub(crate) fn covering_ends(setting: &Setting<'_>, by: &Link) -> bool
    ensures { result ≡ passes.covering_ends (read_setting setting.now) (read_link by.now) }
{
    codomain_sees(setting, &by.codomain)
        && includes(setting.scope.faces, setting.domain, &by.domain)
}

/// Whether a link may share a structure: it leads from the structure's domain, or what includes it, into the codomain, or
/// what that includes.
pub(crate) fn sharing_ends(setting: &Setting<'_>, structure: &Link, by: &Link) -> bool
    ensures { result ≡ passes.sharing_ends (read_setting setting.now) (read_link structure.now) (read_link by.now) }
{
    codomain_sees(setting, &by.codomain)
        && is_or_includes(setting.scope.faces, &by.domain, &structure.domain)
}

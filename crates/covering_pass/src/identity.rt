//! Theories that the identity covers, and what these include.
ghost use Rattle.std.specs.Prelude.{◌≡◌, IfOk, IfSome};
ghost use Rattle.std.specs.List.{list_all};
ghost use Rattle.name_meaning.specs.Names.{Name as BytesOfName};
ghost use Rattle.library_meaning.specs.Closure.{sees};
ghost use Rattle.link_meaning.specs.Assignments as links;
ghost use Rattle.link_meaning.specs.Coverings as meant;
ghost use Rattle.covering_pass.specs.CoverTables.{assigned_of, is_below_identity, setting_of, AreCovers};

use crate::cover_tables::{Covers, add_includes};
use indexmap::IndexSet;
use lf_terms::{Memory, Name};
use link_setting::includes;
use std::alloc::Global;

/// Whether the identity covers all these theories.
fn all_by_identity(covers: &Covers<'_>, theories: &[Name]) -> bool
    requires { AreCovers covers.now }
    ensures { result ≡ list_all (meant.identity_covers (setting_of covers.now) (assigned_of covers.now)) theories.now }
{
    for theory in theories {
        if !covers.identity_covers(theory) {
            return false;
        }
    }
    true
}

/// Whether a theory is included in one of these which the identity covers.
fn is_below(covers: &Covers<'_>, others: &[Name], theory: &Name) -> bool
    requires { AreCovers covers.now }
    ensures { result ≡ is_below_identity (setting_of covers.now) (assigned_of covers.now) others.now theory.now }
{
    for other in others {
        if covers.identity_covers(other) && includes(covers.setting.scope.faces, other, theory) {
            return true;
        }
    }
    false
}

/// Whether a theory is included in one that the domain includes and the identity covers.
pub(crate) fn is_below_domain(covers: &Covers<'_>, theory: &Name) -> bool
    requires { AreCovers covers.now }
    ensures { result ≡ is_below_identity (setting_of covers.now) (assigned_of covers.now) (links.included_theories (setting_of covers.now)) theory.now }
{
    match covers.setting.scope.faces.theory(covers.setting.domain) {
        Some(face) => is_below(covers, face.includes.as_slice(), theory),
        None => false,
    }
}

/// What is included in those of these theories that the identity covers.
fn below_identity(
    alloc: Global,
    covers: &Covers<'_>,
    theories: &[Name],
) -> Result<IndexSet<Name>, Memory>
    requires { AreCovers covers.now }
    ensures { IfOk result (λ below. (theory : BytesOfName) → sees below.keys theory ≡ is_below_identity (setting_of covers.now) (assigned_of covers.now) theories.now theory) }
{
    let mut below = IndexSet::new(alloc);
    for theory in theories {
        if covers.identity_covers(theory) {
            add_includes(alloc, covers.setting.scope.faces, &mut below, theory)?;
        }
    }
    Ok(below)
}

/// Such a table, unless the identity covers all these theories.
fn below_unless_all(
    alloc: Global,
    covers: &Covers<'_>,
    theories: &[Name],
) -> Result<Option<IndexSet<Name>>, Memory>
    requires { AreCovers covers.now }
    ensures { IfOk result (λ below. IfSome below (λ table. (theory : BytesOfName) → sees table.keys theory ≡ is_below_identity (setting_of covers.now) (assigned_of covers.now) theories.now theory)) }
{
    if all_by_identity(covers, theories) {
        return Ok(None);
    }
    Ok(Some(below_identity(alloc, covers, theories)?))
}

/// Such a table for what the domain includes.
pub(crate) fn below_domain(
    alloc: Global,
    covers: &Covers<'_>,
) -> Result<Option<IndexSet<Name>>, Memory>
    requires { AreCovers covers.now }
    ensures { IfOk result (λ below. IfSome below (λ table. (theory : BytesOfName) → sees table.keys theory ≡ is_below_identity (setting_of covers.now) (assigned_of covers.now) (links.included_theories (setting_of covers.now)) theory)) }
{
    match covers.setting.scope.faces.theory(covers.setting.domain) {
        Some(face) => below_unless_all(alloc, covers, face.includes.as_slice()),
        None => Ok(None),
    }
}

//! Constants by their paths.
ghost use Rattle.std.specs.Prelude.{◌≡◌, Result};
ghost use Rattle.std.specs.Option.{option_map};
ghost use Rattle.term_trees.specs.Readings.{read_declaration, read_signature};
ghost use Rattle.library_meaning.specs.Faces.{own_part};
ghost use Rattle.library_meaning.specs.Closure.{sees};
ghost use Rattle.library_meaning.specs.Resolution.{own_at, qualified, included_at, the_only};
ghost use Rattle.mmt_interface.specs.Readings.{environment_of};
ghost use Rattle.names.specs.IncludedTables.{place_among};
ghost use Rattle.names.specs.Readings.{read_scope, read_tabled, read_resolved};

use crate::{Found, ResolveFault, Scope, TabledScope};
use lf_terms::{FlatDecl, FlatSig, Name, Path};
use mmt_interface::Faces;

/// The constant of an own part at a path, by a look-up in a table. None exactly where there is none.
pub fn own_constant<'a>(own: &'a FlatSig, path: &[Name]) -> Option<&'a FlatDecl>
    ensures { option_map (λ decl. read_declaration decl.now) result ≡ own_at (read_signature own.now) path.now }
{
    own.first_at(path)
}

/// The constant that a path names by an included theory in front of it.
pub fn qualified_constant<'a>(scope: &TabledScope<'a>, written: &Path) -> Option<&'a FlatDecl>
    ensures { option_map (λ decl. read_declaration decl.now) result ≡ qualified (read_tabled scope.now) written.now }
{
    match written.as_slice() {
        [theory, rest @ ..] => {
            if is_included(scope, theory) {
                constant_of(scope.scope().faces, theory, rest)
            } else {
                None
            }
        }
        [] => None,
    }
}

/// Whether the scope includes a theory.
fn is_included(scope: &TabledScope<'_>, theory: &Name) -> bool
    ensures { result ≡ sees (read_tabled scope.now).includes theory.now }
{
    match scope.table() {
        Some(table) => table.has(theory),
        None => scope.scope().includes.as_slice().contains(theory),
    }
}

/// The one constant that included theories have at a path.
pub fn only_constant<'a>(scope: &TabledScope<'a>, written: &Path) -> Result<Found<'a>, ResolveFault>
    ensures { read_resolved result ≡ the_only (included_at (read_tabled scope.now) written.now) }
{
    match scope.table() {
        Some(table) => constant_at(scope.scope(), table.place(written), written),
        None => included_constant(scope.scope(), written),
    }
}

/// The constant that the included theory at a place has at a path.
fn constant_at<'a>(
    scope: &Scope<'a>,
    place: Option<Option<usize>>,
    written: &Path,
) -> Result<Found<'a>, ResolveFault>
    requires { place ≡ place_among (environment_of scope.now.faces.now) written.now scope.now.includes.now }
    ensures { read_resolved result ≡ the_only (included_at (read_scope scope.now) written.now) }
{
    let Some(only) = place else {
        return Err(ResolveFault::Unknown);
    };
    let Some(index) = only else {
        return Err(ResolveFault::Ambiguous);
    };
    let Some(theory) = scope.includes.as_slice().get(index) else {
        unreachable!();
    };
    match constant_of(scope.faces, theory, written.as_slice()) {
        Some(decl) => Ok(Found::Decl(decl)),
        None => unreachable!(),
    }
}

/// The same, theory by theory.
fn included_constant<'a>(scope: &Scope<'a>, written: &Path) -> Result<Found<'a>, ResolveFault>
    ensures { read_resolved result ≡ the_only (included_at (read_scope scope.now) written.now) }
{
    let mut found = None;
    for theory in scope.includes.as_slice() {
        if let Some(decl) = constant_of(scope.faces, theory, written.as_slice()) {
            if found.is_some() {
                return Err(ResolveFault::Ambiguous);
            }
            found = Some(decl);
        }
    }
    match found {
        Some(decl) => Ok(Found::Decl(decl)),
        None => Err(ResolveFault::Unknown),
    }
}

/// The constant of an accepted theory at a path. None exactly where there is none.
fn constant_of<'a>(faces: &'a Faces, theory: &Name, path: &[Name]) -> Option<&'a FlatDecl>
    ensures { option_map (λ decl. read_declaration decl.now) result ≡ own_at (own_part (environment_of faces.now) theory.now) path.now }
{
    let face = faces.theory(theory)?;
    own_constant(&face.own, path)
}

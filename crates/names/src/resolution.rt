//! Resolution.
ghost use Rattle.std.specs.Prelude.{◌≡◌, ◌≤◌, ◌^◌, length};
ghost use Rattle.library_meaning.specs.Resolution as meaning;
ghost use Rattle.names.specs.Readings.{read_scope, read_tabled, read_variables, read_resolved};

use crate::bound::variable;
use crate::constants::{only_constant, own_constant, qualified_constant};
use crate::{Found, ResolveFault, Scope, TabledScope, Vars};
use lf_terms::Path;

/// What a written path stands for, by the first of these that applies: the innermost bound variable, where the path is one
/// name; an own constant of this path; a constant of an included theory that the first name of the path names; the one
/// constant that included theories have at this path. `Unknown` where none has one, `Ambiguous` where two have. It takes no
/// memory. There are at most 2^32 variables.
pub fn resolve<'a>(
    scope: &Scope<'a>,
    vars: &Vars,
    written: &Path,
) -> Result<Found<'a>, ResolveFault>
    requires { length vars.now ≤ 2 ^ 32 }
    ensures { read_resolved result ≡ meaning.resolve (read_scope scope.now) (read_variables vars.now) written.now }
{
    resolve_tabled(&TabledScope::new(*scope, None), vars, written)
}

/// The same in a scope that may have a table.
pub fn resolve_tabled<'a>(
    scope: &TabledScope<'a>,
    vars: &Vars,
    written: &Path,
) -> Result<Found<'a>, ResolveFault>
    requires { length vars.now ≤ 2 ^ 32 }
    ensures { read_resolved result ≡ meaning.resolve (read_tabled scope.now) (read_variables vars.now) written.now }
{
    if let Some(index) = variable(vars, written) {
        return Ok(Found::Var(index));
    }
    if let Some(decl) = own_constant(scope.scope().own, written.as_slice()) {
        return Ok(Found::Decl(decl));
    }
    if let Some(decl) = qualified_constant(scope, written) {
        return Ok(Found::Decl(decl));
    }
    only_constant(scope, written)
}

//! Bound variables.
ghost use Rattle.std.specs.Prelude.{◌≡◌, ◌≤◌, ◌^◌, length};
ghost use Rattle.library_meaning.specs.Resolution.{bound_variable, is_variable, variable_from};
ghost use Rattle.mmt_syntax.specs.Readings.{read_binder};
ghost use Rattle.names.specs.Readings.{read_variables};

use crate::Vars;
use lf_terms::{Fam, Name, Path};
use mmt_syntax::Binder;

/// The innermost variable of a path of one name, counted from the innermost one. None exactly where there is none.
pub fn variable(vars: &Vars, written: &Path) -> Option<u32>
    requires { length vars.now ≤ 2 ^ 32 }
    ensures { result ≡ bound_variable (read_variables vars.now) written.now }
{
    match written.as_slice() {
        [name] => innermost(vars, name),
        _ => None,
    }
}

fn innermost(vars: &Vars, name: &Name) -> Option<u32>
    requires { length vars.now ≤ 2 ^ 32 }
    ensures { result ≡ variable_from 0 (read_variables vars.now) name.now }
{
    let variables = vars.as_slice();
    let mut left = variables.len();
    while left > 0 {
        left -= 1;
        if binds(&variables[left], name) {
            return Some((variables.len() - 1 - left) as u32);
        }
    }
    None
}

/// Whether the binder of a variable has this name. A binder without a name has none.
fn binds(variable: &(Binder, Fam), name: &Name) -> bool
    ensures { result ≡ is_variable name.now (read_binder variable.now.0) }
{
    match &variable.0 {
        Binder::Named(other) => name == other,
        Binder::Blank => false,
    }
}

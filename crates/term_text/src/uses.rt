//! Whether a variable stands in a term.
ghost use Rattle.std.specs.Prelude.{◌≡◌, IfOk};
ghost use Rattle.printing_meaning.specs.PrintedTerms as printed;
ghost use Rattle.term_trees.specs.Readings.{read_arguments, read_family, read_head, read_kind, read_object};
ghost use Rattle.term_text.specs.Arguments.{arguments_use};

use crate::constants::under;
use lf_terms::{Fam, Head, Kind, Memory, Obj, Spine};

/// Whether the variable stands in the object. Under a binder it is one more.
#[cycle(uses)]
fn object_uses(variable: u32, object: &Obj) -> Result<bool, Memory>
    ensures { IfOk result (λ uses. uses ≡ printed.object_uses variable (read_object object.now)) }
{
    match object {
        Obj::Lam(body) => object_uses(under(variable)?, body),
        Obj::At { head, spine } => {
            if is_variable(head, variable) {
                return Ok(true);
            }
            spine_uses(variable, spine)
        }
    }
}

/// Whether the variable stands in one of the arguments.
#[cycle(uses)]
fn spine_uses(variable: u32, spine: &Spine) -> Result<bool, Memory>
    ensures { IfOk result (λ uses. uses ≡ arguments_use variable (read_arguments spine.now)) }
{
    for item in spine.as_slice() {
        if object_uses(variable, item)? {
            return Ok(true);
        }
    }
    Ok(false)
}

fn is_variable(head: &Head, variable: u32) -> bool
    ensures { result ≡ printed.atomic_uses variable (read_head head.now) }
{
    match head {
        Head::Var(index) => variable == *index,
        Head::Con(_) => false,
    }
}

/// Whether the variable stands in the family.
pub(crate) fn family_uses(variable: u32, family: &Fam) -> Result<bool, Memory>
    ensures { IfOk result (λ uses. uses ≡ printed.family_uses variable (read_family family.now)) }
{
    match family {
        Fam::Pi(domain, body) => {
            if family_uses(variable, domain)? {
                return Ok(true);
            }
            family_uses(under(variable)?, body)
        }
        Fam::At { spine, .. } => spine_uses(variable, spine),
    }
}

/// Whether the variable stands in the kind.
pub(crate) fn kind_uses(variable: u32, kind: &Kind) -> Result<bool, Memory>
    ensures { IfOk result (λ uses. uses ≡ printed.kind_uses variable (read_kind kind.now)) }
{
    match kind {
        Kind::Ty => Ok(false),
        Kind::Pi(domain, body) => {
            if family_uses(variable, domain)? {
                return Ok(true);
            }
            kind_uses(under(variable)?, body)
        }
    }
}

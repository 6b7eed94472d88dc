//! Erasure of families to simple types.
ghost use Rattle.std.specs.Prelude.{◌≡◌, IfOk};
ghost use Rattle.lf_meaning.specs.Erasure as meaning;
ghost use Rattle.term_trees.specs.Readings.{read_family, read_simple};

use crate::{Fam, Simple};
use base_types::Memory;
use std::alloc::Global;

/// The erasure of a family. It recurses into the domains and bodies of a Π, and copies the heads alone.
pub fn erase(alloc: Global, fam: &Fam) -> Result<Simple, Memory>
    ensures { IfOk result (λ simple. read_simple simple ≡ meaning.erase (read_family fam.now)) }
{
    match fam {
        Fam::Pi(domain, body) => {
            let domain = Box::new(alloc, erase(alloc, domain)?)?;
            Ok(Simple::Arrow(domain, Box::new(alloc, erase(alloc, body)?)?))
        }
        Fam::At { head, spine: _ } => Ok(Simple::Base(head.copy(alloc)?)),
    }
}

//! Kinds.
ghost use Rattle.std.specs.Prelude.{◌≡◌, IfOk};
ghost use Rattle.term_trees.specs.Readings.{read_kind};

use crate::Fam;
use base_types::Memory;
use std::alloc::Global;

/// `type`, or a Π from a family to a kind.
#[derive(Debug, Drop)]
pub enum Kind {
    Ty,
    Pi(Box<Fam>, Box<Kind>),
}

impl Kind {
    /// An equal kind. It recurses as deep as the kind is nested, the arguments in its families included; letting a
    /// kind go does so too.
    pub fn copy(&self, alloc: Global) -> Result<Kind, Memory>
        ensures { IfOk result (λ kind. read_kind kind ≡ read_kind self.now) }
    {
        match self {
            Kind::Ty => Ok(Kind::Ty),
            Kind::Pi(domain, body) => {
                let domain = Box::new(alloc, domain.copy(alloc)?)?;
                Ok(Kind::Pi(domain, Box::new(alloc, body.copy(alloc)?)?))
            }
        }
    }
}

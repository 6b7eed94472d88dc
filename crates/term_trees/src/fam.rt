//! Families.
ghost use Rattle.std.specs.Prelude.{◌≡◌, IfOk};
ghost use Rattle.term_trees.specs.Readings.{read_family};

use crate::Spine;
use base_types::{Memory, QName, Sequence};
use std::alloc::Global;

/// The families of the variables, from the outermost to the innermost.
pub type Ctx = Sequence<Fam>;

/// A Π, or a family constant with its arguments.
#[derive(Debug, Drop)]
pub enum Fam {
    Pi(Box<Fam>, Box<Fam>),
    At { head: QName, spine: Spine },
}

impl Fam {
    /// An equal family. It recurses as deep as the family is nested, its arguments included, with a loop over the
    /// arguments of a head; letting a family go does so too.
    pub fn copy(&self, alloc: Global) -> Result<Fam, Memory>
        ensures { IfOk result (λ family. read_family family ≡ read_family self.now) }
    {
        match self {
            Fam::Pi(domain, body) => {
                let domain = Box::new(alloc, domain.copy(alloc)?)?;
                Ok(Fam::Pi(domain, Box::new(alloc, body.copy(alloc)?)?))
            }
            Fam::At { head, spine } => Ok(Fam::At {
                head: head.copy(alloc)?,
                spine: spine.copy(alloc)?,
            }),
        }
    }
}

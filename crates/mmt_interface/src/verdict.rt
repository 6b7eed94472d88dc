//! Verdicts on modules.
ghost use Rattle.std.specs.Prelude.{◌≡◌, IfOk};

use crate::{Refusal, TheoryFace, ViewFace};
use lf_terms::{Arc, Memory};

/// What an accepted module shows. The size of a theory is the number of declarations of its flat signature.
#[derive(Debug, Drop)]
pub enum Interface {
    Theory { face: TheoryFace, size: u64 },
    View(ViewFace),
}

/// A module is accepted with what it shows, or refused. Both are shared.
#[derive(Debug, Drop)]
pub enum Verdict {
    Accepted(Arc<Interface>),
    Refused(Arc<Refusal>),
}

impl Verdict {
    /// An equal verdict over the same parts, in constant time.
    pub fn share(&self) -> Result<Verdict, Memory>
        ensures { IfOk result (λ verdict. verdict ≡ self.now) }
    {
        match self {
            Verdict::Accepted(interface) => Ok(Verdict::Accepted(interface.share()?)),
            Verdict::Refused(refusal) => Ok(Verdict::Refused(refusal.share()?)),
        }
    }
}

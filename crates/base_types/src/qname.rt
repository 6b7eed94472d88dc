//! Names of constants.
ghost use Rattle.std.specs.Prelude.{◌≡◌, IfOk};

use crate::{Memory, Name, Path};
use std::alloc::Global;

/// A constant: a path in a theory.
#[derive(Debug, Drop, PartialEq, Eq, Hash)]
pub struct QName {
    pub theory: Name,
    pub path: Path,
}

impl QName {
    /// An equal name, over the same bytes.
    pub fn copy(&self, alloc: Global) -> Result<QName, Memory>
        ensures { IfOk result (λ name. name ≡ self.now) }
    {
        Ok(QName {
            theory: self.theory.copy(alloc)?,
            path: self.path.copy(alloc)?,
        })
    }
}

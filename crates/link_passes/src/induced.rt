//! Constants that a structure induces.
ghost use Rattle.std.specs.Prelude.{◌≡◌, ◌∷◌, IfOk};
ghost use Rattle.term_trees.specs.Readings.{read_constant};

use lf_terms::{Memory, Name, Path, QName};
use std::alloc::Global;

/// The constant that a structure of the codomain induces from the one at this path: the path behind the structure's name
/// (Rabe and Kohlhase 2013, section 3).
pub fn induced_constant(
    alloc: Global,
    codomain: &Name,
    structure: &Name,
    path: &Path,
) -> Result<QName, Memory>
    ensures { IfOk result (λ constant. read_constant constant ≡ record { theory = codomain.now; path = structure.now ∷ path.now }) }
{
    Ok(QName {
        theory: codomain.copy(alloc)?,
        path: Path::of(alloc, structure, path.as_slice())?,
    })
}

//! Written paths, and rows of them.
ghost use Rattle.std.specs.Prelude.{◌≡◌};
ghost use Rattle.text_meaning.specs.Trees.{first_name};

use lf_terms::{Name, Path, Sequence, Span};

/// A path, where it is written.
#[derive(Debug, Drop)]
pub struct Written {
    pub path: Path,
    pub span: Span,
}

/// The first name of a written path.
pub fn first_name(written: &Written) -> &Name
    ensures { result.now ≡ first_name written.now.path }
{
    &written.path.as_slice()[0]
}

/// Written paths.
pub type Words = Sequence<Written>;

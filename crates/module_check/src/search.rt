//! Names among names.
ghost use Rattle.std.specs.Prelude.{◌≡◌, true};
ghost use Rattle.name_meaning.specs.Names.{is_among, is_ascending};

use lf_terms::{Name, Names};

/// Whether a name is among names in byte order.
pub(crate) fn contains(names: &Names, name: &Name) -> bool
    requires { is_ascending names.now ≡ true }
    ensures { result ≡ is_among names.now name.now }
{
    names.as_slice().binary_search(name).is_ok()
}

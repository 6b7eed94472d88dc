//! The prefix of printed variables.
ghost use Rattle.std.specs.Prelude.{◌≡◌, IfOk};
ghost use Rattle.printing_meaning.specs.Prefixes.{clashes, is_numbered, is_taken, prefix_of};
ghost use Rattle.term_trees.specs.Readings.{read_signature};

use lf_terms::{FlatSig, Memory, Name};
use std::alloc::Global;

/// The shortest prefix that no own constant clashes with.
pub(crate) fn prefix(alloc: Global, own: &FlatSig) -> Result<Vec<u8>, Memory>
    ensures { IfOk result (λ prefix. prefix.items ≡ prefix_of (read_signature own.now)) }
{
    let mut prefix = Vec::from_slice(alloc, b"x")?;
    while is_taken(own, &prefix) {
        prefix.push(b'\'')?;
    }
    Ok(prefix)
}

/// Whether an own constant clashes with the prefix.
fn is_taken(own: &FlatSig, prefix: &[u8]) -> bool
    ensures { result ≡ is_taken (read_signature own.now) prefix.now }
{
    for index in 0..own.len() {
        if let Some(decl) = own.at(index) {
            if clashes(decl.name.path.as_slice(), prefix) {
                return true;
            }
        }
    }
    false
}

/// Whether the path is one name, which begins with the prefix and a digit.
fn clashes(path: &[Name], prefix: &[u8]) -> bool
    ensures { result ≡ clashes prefix.now path.now }
{
    match path {
        [name] => is_numbered(name.as_str().as_bytes(), prefix),
        _ => false,
    }
}

/// Whether the name begins with the prefix and a digit.
fn is_numbered(name: &[u8], prefix: &[u8]) -> bool
    ensures { result ≡ is_numbered prefix.now name.now }
{
    if !name.starts_with(prefix) {
        return false;
    }
    match name.get(prefix.len()) {
        Some(byte) => byte.is_ascii_digit(),
        None => false,
    }
}

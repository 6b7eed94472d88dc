//! Numbers, paths, constants and variables.
ghost use Rattle.std.specs.Prelude.{◌≡◌, ◌++◌, suc, IfOk, OnOk};
ghost use Rattle.std.specs.Fmt.{decimal};
ghost use Rattle.printing_meaning.specs.Constants.{constant_text, path_text, variable_text};
ghost use Rattle.term_trees.specs.Readings.{read_constant};
ghost use Rattle.term_text.specs.Readings.{read_seen};

use crate::Seen;
use lf_terms::{Bytes, Memory, Name, QName};
use std::alloc::Global;

/// Writes a number in decimal digits.
pub fn number(alloc: Global, out: &mut Bytes, number: u64) -> Result<(), Memory>
    ensures { OnOk result (out.new ≡ out.old ++ decimal number) }
{
    out.extend(number.to_string(alloc)?.as_bytes())
}

/// Writes the names of a path, joined by dots.
pub fn path(out: &mut Bytes, names: &[Name]) -> Result<(), Memory>
    ensures { OnOk result (out.new ≡ out.old ++ path_text names.now) }
{
    let Some((first, others)) = names.split_first() else {
        return Ok(());
    };
    out.extend(first.as_str().as_bytes())?;
    for name in others {
        out.extend(b".")?;
        out.extend(name.as_str().as_bytes())?;
    }
    Ok(())
}

/// Writes a constant: one of the theory from which it is seen as its path, any other as its theory, a dot and its path.
pub fn constant(out: &mut Bytes, seen: &Seen<'_>, constant: &QName) -> Result<(), Memory>
    ensures { OnOk result (out.new ≡ out.old ++ constant_text (read_seen seen.now) (read_constant constant.now)) }
{
    if constant.theory != *seen.theory {
        out.extend(constant.theory.as_str().as_bytes())?;
        out.extend(b".")?;
    }
    path(out, constant.path.as_slice())
}

/// Writes the variable of the binder with this number, counted from 1 at the outside.
pub(crate) fn variable(
    alloc: Global,
    out: &mut Bytes,
    seen: &Seen<'_>,
    binder: u32,
) -> Result<(), Memory>
    ensures { OnOk result (out.new ≡ out.old ++ variable_text (read_seen seen.now) binder) }
{
    out.extend(&seen.prefix)?;
    number(alloc, out, binder as u64)
}

/// The number of a binder under so many others. There are at most 2^32 - 1 binders around a place; one more would be want of
/// memory, as an index that cannot be named is everywhere.
pub(crate) fn under(depth: u32) -> Result<u32, Memory>
    ensures { IfOk result (λ number. number ≡ suc depth) }
{
    depth.checked_add(1).ok_or(Memory)
}

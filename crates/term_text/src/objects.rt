//! Objects.
ghost use Rattle.std.specs.Prelude.{◌≡◌, ◌++◌, OnOk, codes, suc};
ghost use Rattle.printing_meaning.specs.Constants.{variable_text};
ghost use Rattle.printing_meaning.specs.PrintedTerms as printed;
ghost use Rattle.term_trees.specs.Readings.{read_arguments, read_head, read_object};
ghost use Rattle.term_text.specs.Arguments.{arguments_text};
ghost use Rattle.term_text.specs.Readings.{read_seen};

use crate::Seen;
use crate::constants::{constant, under, variable};
use lf_terms::{Bytes, Head, Memory, Obj, Spine};
use std::alloc::Global;

/// Writes an object under so many binders: a λ as `[v] M`, an application as its head and its arguments, parted by one space.
/// It recurses as deep as the object is nested.
#[cycle(objects)]
pub fn object(
    alloc: Global,
    out: &mut Bytes,
    seen: &Seen<'_>,
    depth: u32,
    term: &Obj,
) -> Result<(), Memory>
    ensures { OnOk result (out.new ≡ out.old ++ printed.object_text (read_seen seen.now) depth (read_object term.now)) }
{
    match term {
        Obj::Lam(body) => {
            let inner = under(depth)?;
            binder(alloc, out, seen, inner)?;
            object(alloc, out, seen, inner, body)
        }
        Obj::At { head, spine } => {
            write_head(alloc, out, seen, depth, head)?;
            arguments(alloc, out, seen, depth, spine)
        }
    }
}

/// Writes the arguments of a head, each behind a space, and in parentheses unless it is a head alone.
#[cycle(objects)]
pub(crate) fn arguments(
    alloc: Global,
    out: &mut Bytes,
    seen: &Seen<'_>,
    depth: u32,
    spine: &Spine,
) -> Result<(), Memory>
    ensures { OnOk result (out.new ≡ out.old ++ arguments_text (read_seen seen.now) depth (read_arguments spine.now)) }
{
    for argument in spine.as_slice() {
        let bare = is_head(argument);
        out.extend(if bare { b" " } else { b" (" })?;
        object(alloc, out, seen, depth, argument)?;
        out.extend(if bare { b"" } else { b")" })?;
    }
    Ok(())
}

/// Whether the object is a head alone.
fn is_head(object: &Obj) -> bool
    ensures { result ≡ printed.is_head (read_object object.now) }
{
    match object {
        Obj::Lam(_) => false,
        Obj::At { spine, .. } => spine.len() == 0,
    }
}

/// Writes a variable by the number of its binder, or a constant.
fn write_head(
    alloc: Global,
    out: &mut Bytes,
    seen: &Seen<'_>,
    depth: u32,
    head: &Head,
) -> Result<(), Memory>
    ensures { OnOk result (out.new ≡ out.old ++ printed.atomic_text (read_seen seen.now) depth (read_head head.now)) }
{
    match head {
        Head::Var(index) => variable(alloc, out, seen, depth.saturating_sub(*index)),
        Head::Con(name) => constant(out, seen, name),
    }
}

/// Writes the binder of a λ: `[v] `.
pub(crate) fn binder(
    alloc: Global,
    out: &mut Bytes,
    seen: &Seen<'_>,
    number: u32,
) -> Result<(), Memory>
    ensures { OnOk result (out.new ≡ out.old ++ (codes "[" ++ variable_text (read_seen seen.now) number ++ codes "] ")) }
{
    out.extend(b"[")?;
    variable(alloc, out, seen, number)?;
    out.extend(b"] ")
}

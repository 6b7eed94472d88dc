//! Families and kinds.
ghost use Rattle.std.specs.Prelude.{◌≡◌, ◌++◌, OnOk, codes};
ghost use Rattle.printing_meaning.specs.Constants.{variable_text};
ghost use Rattle.printing_meaning.specs.PrintedTerms as printed;
ghost use Rattle.term_trees.specs.Readings.{read_family, read_kind};
ghost use Rattle.term_text.specs.Products.{back_text, front_text};
ghost use Rattle.term_text.specs.Readings.{read_seen};

use crate::Seen;
use crate::constants::{constant, under, variable};
use crate::objects::arguments;
use crate::uses::{family_uses, kind_uses};
use lf_terms::{Bytes, Fam, Kind, Memory};
use std::alloc::Global;

/// Writes a family under so many binders: a Π whose body uses its variable as `{v:A} B`, another as `A -> B`, with A in
/// parentheses where it is a Π. It recurses as deep as the family is nested, and looks for the variable of each Π in its body.
pub fn family(
    alloc: Global,
    out: &mut Bytes,
    seen: &Seen<'_>,
    depth: u32,
    term: &Fam,
) -> Result<(), Memory>
    ensures { OnOk result (out.new ≡ out.old ++ printed.family_text (read_seen seen.now) depth (read_family term.now)) }
{
    match term {
        Fam::Pi(domain, body) => {
            let inner = under(depth)?;
            let is_used = family_uses(0, body)?;
            open(alloc, out, seen, inner, is_used, domain)?;
            family(alloc, out, seen, depth, domain)?;
            close(out, is_used, domain)?;
            family(alloc, out, seen, inner, body)
        }
        Fam::At { head, spine } => {
            constant(out, seen, head)?;
            arguments(alloc, out, seen, depth, spine)
        }
    }
}

/// Writes a kind, as `family` does a family.
pub(crate) fn kind(
    alloc: Global,
    out: &mut Bytes,
    seen: &Seen<'_>,
    depth: u32,
    term: &Kind,
) -> Result<(), Memory>
    ensures { OnOk result (out.new ≡ out.old ++ printed.kind_text (read_seen seen.now) depth (read_kind term.now)) }
{
    match term {
        Kind::Ty => out.extend(b"type"),
        Kind::Pi(domain, body) => {
            let inner = under(depth)?;
            let is_used = kind_uses(0, body)?;
            open(alloc, out, seen, inner, is_used, domain)?;
            family(alloc, out, seen, depth, domain)?;
            close(out, is_used, domain)?;
            kind(alloc, out, seen, inner, body)
        }
    }
}

/// Writes what stands in front of the domain of a Π: `{v:`, or a parenthesis, or nothing.
fn open(
    alloc: Global,
    out: &mut Bytes,
    seen: &Seen<'_>,
    number: u32,
    is_used: bool,
    domain: &Fam,
) -> Result<(), Memory>
    ensures { OnOk result (out.new ≡ out.old ++ front_text is_used (variable_text (read_seen seen.now) number) (printed.is_product (read_family domain.now))) }
{
    if is_used {
        out.extend(b"{")?;
        variable(alloc, out, seen, number)?;
        return out.extend(b":");
    }
    out.extend(if is_product(domain) { b"(" } else { b"" })
}

/// Writes what stands behind the domain of a Π: `} `, or ` -> ` behind the parenthesis, if there is one.
fn close(out: &mut Bytes, is_used: bool, domain: &Fam) -> Result<(), Memory>
    ensures { OnOk result (out.new ≡ out.old ++ back_text is_used (printed.is_product (read_family domain.now))) }
{
    if is_used {
        return out.extend(b"} ");
    }
    out.extend(if is_product(domain) {
        b") -> "
    } else {
        b" -> "
    })
}

fn is_product(family: &Fam) -> bool
    ensures { result ≡ printed.is_product (read_family family.now) }
{
    match family {
        Fam::Pi(_, _) => true,
        Fam::At { .. } => false,
    }
}

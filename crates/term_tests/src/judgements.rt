//! Judgements about single terms, over a signature and a context.

use crate::rows::{Row, file};
use crate::terms::expanded;
use lf_check::{LfFault, check_fam, check_kind, check_obj, synth};
use lf_terms::{Ctx, Fam, FlatSig, Head, Kind, Obj, same_fam};
use std::alloc::Global;
use test_texts::Case;
use test_texts::found::{constant, context, family, kind, object, signature, spine};

/// The names of the variables of the context.
const NAMES: &str = "n v";

/// What a fault is called, and its place.
fn named(fault: &LfFault) -> (&str, &[u32]) {
    match fault {
        LfFault::UnknownConstant { at } => ("unknown-constant", at.as_slice()),
        LfFault::NotAFunction { at } => ("not-a-function", at.as_slice()),
        LfFault::NotCanonical { at } => ("not-canonical", at.as_slice()),
        LfFault::Mismatch { at } => ("mismatch", at.as_slice()),
        LfFault::Level { at } => ("level", at.as_slice()),
        LfFault::Memory => ("memory", &[]),
    }
}

/// Whether a fault is the wanted one, which is written as its name and its place, `mismatch 1 2`.
pub(crate) fn is_fault(fault: &LfFault, wanted: &str) -> bool {
    let (name, at) = named(fault);
    let mut words = wanted.split_whitespace();
    let mut holds = words.next() == Some(name);
    for number in at {
        let word = words.next().unwrap_or("");
        holds = holds && word.parse::<u32>().ok() == Some(*number);
    }
    holds && words.next().is_none()
}

/// Whether an answer is the wanted one, which is written as `ok` or as a fault.
fn is_answer(checked: Result<(), LfFault>, wanted: &str) -> bool {
    let holds = match &checked {
        Ok(()) => wanted == "ok",
        Err(fault) => is_fault(fault, wanted),
    };
    drop(checked);
    holds
}

fn read_object(alloc: Global, text: &str) -> Option<Box<Obj>> {
    let text = expanded(alloc, text)?;
    object(alloc, NAMES, text.as_str())
}

fn read_family(alloc: Global, text: &str) -> Option<Box<Fam>> {
    let text = expanded(alloc, text)?;
    family(alloc, NAMES, text.as_str())
}

fn read_kind(alloc: Global, text: &str) -> Option<Box<Kind>> {
    let text = expanded(alloc, text)?;
    kind(alloc, NAMES, text.as_str())
}

/// Whether the answer about `M : A`, `family A` or `kind K` is the wanted one.
fn judged(alloc: Global, sig: &FlatSig, ctx: &Ctx, text: &str, wanted: &str) -> bool {
    if let Some(text) = text.strip_prefix("family ") {
        return judged_family(alloc, sig, ctx, text, wanted);
    }
    if let Some(text) = text.strip_prefix("kind ") {
        return judged_kind(alloc, sig, ctx, text, wanted);
    }
    judged_object(alloc, sig, ctx, text, wanted)
}

fn judged_family(alloc: Global, sig: &FlatSig, ctx: &Ctx, text: &str, wanted: &str) -> bool {
    match read_family(alloc, text) {
        Some(family) => is_answer(check_fam(alloc, sig, ctx, &family), wanted),
        None => false,
    }
}

fn judged_kind(alloc: Global, sig: &FlatSig, ctx: &Ctx, text: &str, wanted: &str) -> bool {
    match read_kind(alloc, text) {
        Some(kind) => is_answer(check_kind(alloc, sig, ctx, &kind), wanted),
        None => false,
    }
}

fn judged_object(alloc: Global, sig: &FlatSig, ctx: &Ctx, text: &str, wanted: &str) -> bool {
    let (text, class) = text.split_once(" : ").unwrap_or((text, ""));
    let family = read_family(alloc, class);
    let object = read_object(alloc, text);
    match (&object, &family) {
        (Some(object), Some(family)) => {
            is_answer(check_obj(alloc, sig, ctx, object, family), wanted)
        }
        _ => false,
    }
}

/// Whether the answer about a judgement is the wanted one.
pub(crate) fn judges(alloc: Global, case: &Case<'_>, text: &str, wanted: &str) -> bool {
    let sig = signature(alloc, file(case, "signature"));
    let ctx = context(alloc, file(case, "context"));
    match (&sig, &ctx) {
        (Some(sig), Some(ctx)) => judged(alloc, sig, ctx, text, wanted),
        _ => false,
    }
}

/// Whether a constant with arguments synthesises the wanted family, or has the wanted fault.
pub(crate) fn synthesises(alloc: Global, case: &Case<'_>, row: Row<'_>) -> bool {
    let sig = signature(alloc, file(case, "signature"));
    let ctx = context(alloc, file(case, "context"));
    match (&sig, &ctx) {
        (Some(sig), Some(ctx)) => is_synthesised(alloc, sig, ctx, row),
        _ => false,
    }
}

fn head(alloc: Global, text: &str) -> Option<Head> {
    Some(Head::Con(constant(alloc, text)?))
}

fn is_synthesised(alloc: Global, sig: &FlatSig, ctx: &Ctx, row: Row<'_>) -> bool {
    let head = head(alloc, row.first);
    let arguments = spine(alloc, NAMES, row.second);
    match (&head, &arguments) {
        (Some(head), Some(arguments)) => {
            is_found(
                alloc,
                synth(alloc, sig, ctx, head, arguments.as_slice()),
                row.third,
            )
        }
        _ => false,
    }
}

fn is_found(alloc: Global, answer: Result<Fam, LfFault>, wanted: &str) -> bool {
    let holds = match &answer {
        Ok(found) => is_family(alloc, found, wanted),
        Err(fault) => is_fault(fault, wanted),
    };
    drop(answer);
    holds
}

fn is_family(alloc: Global, found: &Fam, wanted: &str) -> bool {
    match family(alloc, NAMES, wanted) {
        Some(wanted) => same_fam(found, &wanted),
        None => false,
    }
}

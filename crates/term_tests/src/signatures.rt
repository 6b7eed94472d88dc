//! Flat signatures.

use crate::judgements::is_fault;
use lf_check::{SigFault, check_sig};
use std::alloc::Global;
use test_texts::found::signature;

/// Whether the answer about the declarations of a text is the wanted one: `ok`, or the index of the first bad
/// declaration and its fault, as `2 mismatch 1 2`.
pub(crate) fn answers(alloc: Global, text: &str, wanted: &str) -> bool {
    match signature(alloc, text) {
        Some(sig) => is_answer(check_sig(alloc, &sig), wanted),
        None => false,
    }
}

fn is_answer(checked: Result<(), SigFault>, wanted: &str) -> bool {
    let holds = match &checked {
        Ok(()) => wanted == "ok",
        Err(SigFault::Bad { index, fault }) => {
            let (place, wanted) = wanted.split_once(' ').unwrap_or(("", wanted));
            place.parse::<usize>().ok() == Some(*index) && is_fault(fault, wanted)
        }
        Err(SigFault::Memory) => false,
    };
    drop(checked);
    holds
}

/// Whether a further declaration behind those of the text is answered so: `ok`, or a fault of that declaration.
pub(crate) fn answers_behind(alloc: Global, text: &str, line: &str, wanted: &str) -> bool {
    match format!(in alloc; "{text}\n{line}") {
        Ok(whole) => answers_at(alloc, whole.as_str(), text.lines().count(), wanted),
        Err(_) => false,
    }
}

/// Whether no declaration of a text is bad, where that is wanted, and else the first bad one has this index and this fault.
fn answers_at(alloc: Global, whole: &str, index: usize, wanted: &str) -> bool {
    if wanted == "ok" {
        return answers(alloc, whole, wanted);
    }
    match format!(in alloc; "{index} {wanted}") {
        Ok(wanted) => answers(alloc, whole, wanted.as_str()),
        Err(_) => false,
    }
}

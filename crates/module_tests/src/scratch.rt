//! A library that is judged from its texts alone.

use edit_log::{Edit, Log};
use lf_terms::{Arc, Bytes, Name};
use mmt_interface::{Faces, Verdict};
use module_check::scratch;
use std::alloc::Global;
use std::test::Fail;

/// A theory, one that includes it, and one that is refused.
const MODULES: &[(&str, &str)] = &[
    (
        "Nat",
        "%sig Nat = { nat : type. z : nat. s : nat -> nat. }.",
    ),
    ("User", "%sig User = { %include Nat. }."),
    ("Bad", "%sig Bad = { %include Gone. }."),
];

/// The log that has put these modules.
pub(crate) fn library(alloc: Global, modules: &[(&str, &str)]) -> Result<Box<Log>, Fail> {
    let mut log = Box::new(alloc, Log::new(alloc))?;
    for &(name, text) in modules {
        put(alloc, &mut log, name, text)?;
    }
    Ok(log)
}

pub(crate) fn put(alloc: Global, log: &mut Log, name: &str, text: &str) -> Result<(), Fail> {
    let name = Name::new(alloc, name)?;
    let text = Arc::new(alloc, Bytes::from_vec(text.as_bytes().to_vec(alloc)?))?;
    match log.append(alloc, Edit::Put { name, text }) {
        Ok(_) => Ok(()),
        Err(_) => Err("not put".into()),
    }
}

fn is_refused(alloc: Global, faces: &Faces, name: &str) -> Result<bool, Fail> {
    let name = Name::new(alloc, name)?;
    Ok(matches!(faces.get(&name), Some(Verdict::Refused(_))))
}

fn is_theory(alloc: Global, faces: &Faces, name: &str) -> Result<bool, Fail> {
    let name = Name::new(alloc, name)?;
    Ok(faces.theory(&name).is_some())
}

/// Whether the two first are accepted, and the third is refused.
fn is_judged(alloc: Global) -> Result<bool, Fail> {
    let log = library(alloc, MODULES)?;
    let faces = Box::new(alloc, scratch(alloc, &log)?)?;
    let accepted = is_theory(alloc, &faces, "Nat")? && is_theory(alloc, &faces, "User")?;
    Ok(accepted && is_refused(alloc, &faces, "Bad")? && faces.len() == 3)
}

#[test]
fn a_library_from_its_texts(rt: HostRuntime) -> Result<(), Fail> {
    assert!(rt; is_judged(rt.alloc())?);
    Ok(())
}

//! Expressions, with what they stand for as a theory `t` sees it, or the first rule that they break and where.

use crate::library::Library;
use elaborate::{ElabFault, elab_class, elab_kind, elab_value};
use lf_terms::{Bytes, Class, Kind, Memory, Name, Value};
use mmt_syntax::{Expr, Judgement};
use names::Vars;
use std::alloc::Global;
use term_text::{Seen, class, value};
use test_texts::Told;
use twelf_reader::read_judgement;

/// The longest text that is read.
const LONGEST: usize = 1 << 20;

/// The judgement of a text, if it is one.
fn judgement(alloc: Global, text: &str) -> Option<Box<Judgement>> {
    let bytes = text.as_bytes();
    if bytes.len() > LONGEST {
        return None;
    }
    Box::new(alloc, read_judgement(alloc, bytes).ok()?).ok()
}

/// Tells what is printed, or why it is not.
fn tell_print(told: &mut Told, print: Result<Bytes, Memory>) {
    match print {
        Ok(bytes) => told.say(str::from_utf8(bytes.as_slice()).unwrap_or("no text")),
        Err(_) => told.say("want of memory"),
    }
    told.say("\n");
}

fn print_class(alloc: Global, library: &Library, found: &Class) -> Result<Bytes, Memory> {
    let mut out = Bytes::new(alloc);
    push_class(alloc, library, &mut out, found)?;
    Ok(out)
}

fn push_class(
    alloc: Global,
    library: &Library,
    out: &mut Bytes,
    found: &Class,
) -> Result<(), Memory> {
    match Name::new(alloc, "t") {
        Ok(theory) => class(alloc, out, &Seen::new(alloc, &theory, &library.own)?, found),
        Err(_) => Err(Memory),
    }
}

fn print_value(alloc: Global, library: &Library, found: &Value) -> Result<Bytes, Memory> {
    let mut out = Bytes::new(alloc);
    push_value(alloc, library, &mut out, found)?;
    Ok(out)
}

fn push_value(
    alloc: Global,
    library: &Library,
    out: &mut Bytes,
    found: &Value,
) -> Result<(), Memory> {
    match Name::new(alloc, "t") {
        Ok(theory) => value(alloc, out, &Seen::new(alloc, &theory, &library.own)?, found),
        Err(_) => Err(Memory),
    }
}

/// A value is told with what it is: the same as a constant, a family with so many binders, or a term.
fn tell_value(alloc: Global, library: &Library, told: &mut Told, found: &Value) {
    match found {
        Value::Same(_) => told.say("same "),
        Value::Fam { binders, .. } => write!(told, "family of {binders} "),
        Value::Term(_) => {}
    }
    tell_print(told, print_value(alloc, library, found));
}

fn tell_fault(told: &mut Told, fault: &ElabFault) {
    match fault {
        ElabFault::Broken { span, rule } => {
            write!(told, "{}-{} {}\n", span.from, span.to, rule.word());
        }
        ElabFault::Memory => told.say("no memory\n"),
    }
}

/// The class behind the colon of a judgement.
pub(crate) fn class_told(alloc: Global, library: &Library, told: &mut Told, text: &str) {
    match judgement(alloc, text) {
        Some(judgement) => tell_class(alloc, library, told, &judgement.fam),
        None => told.say("no judgement\n"),
    }
}

fn tell_class(alloc: Global, library: &Library, told: &mut Told, written: &Expr) {
    match elab_class(alloc, &library.scope(), written) {
        Ok(found) => tell_print(told, print_class(alloc, library, &found)),
        Err(fault) => tell_fault(told, &fault),
    }
}

/// The kind behind the colon of a judgement.
pub(crate) fn kind_told(alloc: Global, library: &Library, told: &mut Told, text: &str) {
    match judgement(alloc, text) {
        Some(judgement) => tell_kind(alloc, library, told, &judgement.fam),
        None => told.say("no judgement\n"),
    }
}

fn tell_kind(alloc: Global, library: &Library, told: &mut Told, written: &Expr) {
    match kind_of(alloc, library, written) {
        Ok(found) => tell_print(told, print_class(alloc, library, &Class::Kind(found))),
        Err(fault) => tell_fault(told, &fault),
    }
}

fn kind_of(alloc: Global, library: &Library, written: &Expr) -> Result<Kind, ElabFault> {
    let vars = Vars::new(alloc);
    elab_kind(alloc, &library.scope(), &vars, written)
}

/// The value before the colon of a judgement, of the class behind it.
pub(crate) fn value_told(alloc: Global, library: &Library, told: &mut Told, text: &str) {
    match judgement(alloc, text) {
        Some(judgement) => tell_elaborated(alloc, library, told, &judgement),
        None => told.say("no judgement\n"),
    }
}

fn tell_elaborated(alloc: Global, library: &Library, told: &mut Told, written: &Judgement) {
    match elaborated(alloc, library, written) {
        Ok(found) => tell_value(alloc, library, told, &found),
        Err(fault) => tell_fault(told, &fault),
    }
}

fn elaborated(alloc: Global, library: &Library, written: &Judgement) -> Result<Value, ElabFault> {
    let scope = library.scope();
    let class = elab_class(alloc, &scope, &written.fam)?;
    elab_value(alloc, &scope, &written.obj, &class)
}

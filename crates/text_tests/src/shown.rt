//! What texts are read as, as it is told.

use lf_terms::{Bytes, Memory, Span};
use mmt_syntax::{Expr, Judgement, Module, deps, place_of};
use std::alloc::Global;
use test_texts::Told;
use twelf_print::{print_expr, print_module};
use twelf_reader::{Pieces, ReadFault, read_judgement, read_module, split};

/// The longest text that is read.
const LONG: usize = 100_000;

/// The module of a text as it is printed; or the place and the word of its fault.
pub(crate) fn answered(alloc: Global, text: &[u8], told: &mut Told) {
    if text.len() > LONG {
        told.say("a long text");
        return;
    }
    match read_module(alloc, text) {
        Ok(module) => tell_print(told, &print_module(alloc, &module)),
        Err(fault) => tell_fault(told, text, &fault),
    }
}

fn tell_print(told: &mut Told, print: &Result<Bytes, Memory>) {
    match print {
        Ok(bytes) => told.say(str::from_utf8(bytes.as_slice()).unwrap_or("no text")),
        Err(_) => told.say("want of memory"),
    }
}

fn tell_fault(told: &mut Told, text: &[u8], fault: &ReadFault) {
    match *fault {
        ReadFault::Syntax { at } => tell_place(told, text, at, "syntax"),
        ReadFault::TooDeep { at } => tell_place(told, text, at, "too deep"),
        ReadFault::Unsupported { at } => tell_place(told, text, at, "unsupported"),
        ReadFault::Memory => told.say("want of memory"),
    }
}

/// A word, behind the line and the column of a place.
fn tell_place(told: &mut Told, text: &[u8], at: u32, word: &str) {
    if text.len() > LONG || at as usize > text.len() {
        told.say("past the end");
    } else {
        let place = place_of(text, at);
        write!(told, "{}:{} {}", place.line, place.column, word);
    }
}

/// The line and the column of a place.
pub(crate) fn placed_at(text: &[u8], at: &str, told: &mut Told) {
    match at.parse::<u32>() {
        Ok(at) => tell_place(told, text, at, "place"),
        Err(_) => told.say("no place"),
    }
}

/// The dependencies of the module of a text, each as the place of its path and its name.
pub(crate) fn dependencies(alloc: Global, text: &[u8], told: &mut Told) {
    if text.len() > LONG {
        told.say("a long text");
        return;
    }
    match read_module(alloc, text) {
        Ok(module) => tell_dependencies(told, &module),
        Err(_) => told.say("a text that does not read"),
    }
}

fn tell_dependencies(told: &mut Told, module: &Module) {
    for (span, name) in deps(module) {
        write!(told, "{} {} ", span.from, name.as_str());
    }
}

/// The object and the family of the judgement of a text, each as its span and its print; or its fault.
pub(crate) fn judged(alloc: Global, text: &[u8], told: &mut Told) {
    if text.len() > LONG {
        told.say("a long text");
        return;
    }
    match read_judgement(alloc, text) {
        Ok(judgement) => tell_judgement(alloc, told, &judgement),
        Err(fault) => tell_fault(told, text, &fault),
    }
}

fn tell_judgement(alloc: Global, told: &mut Told, judgement: &Judgement) {
    tell_expr(alloc, told, &judgement.obj);
    told.say(" : ");
    tell_expr(alloc, told, &judgement.fam);
}

fn tell_expr(alloc: Global, told: &mut Told, expr: &Expr) {
    let Span { from, to } = expr.span;
    write!(told, "{from}-{to} ");
    tell_print(told, &print_expr(alloc, expr));
}

/// The modules of a file, each as its name, the span of that and its own; or the place and the word of the fault.
pub(crate) fn divided(alloc: Global, text: &[u8], told: &mut Told) {
    if text.len() > LONG {
        told.say("a long text");
        return;
    }
    match split(alloc, text) {
        Ok(pieces) => tell_pieces(told, &pieces),
        Err(fault) => tell_fault(told, text, &fault),
    }
}

fn tell_pieces(told: &mut Told, pieces: &Pieces) {
    for piece in pieces.as_slice() {
        for name in piece.name.path.as_slice() {
            told.say(name.as_str());
        }
        let Span { from, to } = piece.name.span;
        write!(told, " {from}-{to} {}-{} ", piece.span.from, piece.span.to);
    }
}

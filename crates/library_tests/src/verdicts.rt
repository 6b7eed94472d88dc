//! Verdicts that are added, found and shared.

use crate::library::{Library, is_added};
use lf_terms::{Arc, HeadMap, Memory, Name, Span};
use mmt_interface::{Interface, Refusal, Rule, Verdict, ViewFace};
use std::alloc::Global;
use test_texts::Told;
use test_texts::found::constant;

/// Refuses a module.
pub(crate) fn refuse(alloc: Global, library: &mut Library, told: &mut Told, name: &str) {
    let verdict = refusal(alloc);
    add(alloc, library, told, name, verdict);
}

fn refusal(alloc: Global) -> Option<Verdict> {
    let refusal = Refusal {
        span: Span { from: 5, to: 6 },
        rule: Rule::WrongName,
        label: constant(alloc, "R")?.path,
    };
    Some(Verdict::Refused(Arc::new(alloc, refusal).ok()?))
}

/// Accepts a view from A to D without images.
pub(crate) fn show_view(alloc: Global, library: &mut Library, told: &mut Told, name: &str) {
    let verdict = view(alloc, name);
    add(alloc, library, told, name, verdict);
}

fn view(alloc: Global, name: &str) -> Option<Verdict> {
    let face = face_of(alloc, name)?;
    Some(Verdict::Accepted(Arc::new(alloc, Interface::View(face)).ok()?))
}

fn face_of(alloc: Global, name: &str) -> Option<ViewFace> {
    let name = Name::new(alloc, name).ok()?;
    let domain = Name::new(alloc, "A").ok()?;
    let codomain = Name::new(alloc, "D").ok()?;
    Some(ViewFace {
        name,
        domain,
        codomain,
        map: HeadMap::new(alloc),
    })
}

fn add(
    alloc: Global,
    library: &mut Library,
    told: &mut Told,
    name: &str,
    verdict: Option<Verdict>,
) {
    match verdict {
        Some(verdict) => {
            let added = is_added(alloc, &mut library.faces, name, verdict);
            let answer = if added { "added" } else { "there is one" };
            write!(told, "{answer}, of {}\n", library.faces.len());
        }
        None => told.say("no verdict\n"),
    }
}

/// Whether there is anything under a name, a view, and a theory.
pub(crate) fn find(alloc: Global, library: &Library, told: &mut Told, written: &str) {
    match Name::new(alloc, written) {
        Ok(name) => tell_finds(library, told, &name),
        Err(_) => told.say("no name\n"),
    }
}

fn tell_finds(library: &Library, told: &mut Told, name: &Name) {
    let is_there = library.faces.get(name).is_some();
    let is_view = library.faces.view(name).is_some();
    let is_theory = library.faces.theory(name).is_some();
    let written = name.as_str();
    write!(
        told,
        "{written} {is_there} view {is_view} theory {is_theory}\n"
    );
}

/// What a verdict that is shared tells.
pub(crate) fn share(alloc: Global, library: &Library, told: &mut Told, written: &str) {
    match Name::new(alloc, written) {
        Ok(name) => tell_shared(told, library.faces.get(&name)),
        Err(_) => told.say("no name\n"),
    }
}

fn tell_shared(told: &mut Told, verdict: Option<&Verdict>) {
    match verdict {
        Some(verdict) => tell_verdict(told, verdict.share()),
        None => told.say("no verdict\n"),
    }
}

fn tell_verdict(told: &mut Told, verdict: Result<Verdict, Memory>) {
    match &verdict {
        Ok(Verdict::Accepted(interface)) => tell_interface(told, interface.get()),
        Ok(Verdict::Refused(refusal)) => tell_refusal(told, refusal.get()),
        Err(_) => told.say("want of memory\n"),
    }
    drop(verdict);
}

fn tell_interface(told: &mut Told, interface: &Interface) {
    match interface {
        Interface::Theory { .. } => told.say("theory\n"),
        Interface::View(view) => {
            write!(
                told,
                "view from {} to {}\n",
                view.domain.as_str(),
                view.codomain.as_str()
            );
        }
    }
}

fn tell_refusal(told: &mut Told, refusal: &Refusal) {
    let Refusal { span, rule, .. } = refusal;
    let (number, word) = (rule.number(), rule.word());
    write!(told, "refused {}-{} {number} {word}\n", span.from, span.to);
}

//! Terms of all sorts, so that a row is a line, whatever its sort.

use hereditary_subst::{subst_fam, subst_kind, subst_obj};
use lf_terms::{
    Class, Fam, HeadMap, Kind, Memory, Obj, QName, Simple, Value, same_class, same_fam, same_kind,
    same_obj, same_value, shift_fam, shift_kind, shift_obj,
};
use lf_translate::{
    TranslateFault, translate_class, translate_fam, translate_kind, translate_obj, translate_value,
};
use std::alloc::Global;
use test_texts::found::{class, constant, family, kind, object, value};

#[derive(Drop)]
pub(crate) enum Term {
    Object(Box<Obj>),
    Family(Box<Fam>),
    Kind(Box<Kind>),
    Class(Box<Class>),
    Value(Box<Value>),
}

/// The text itself, or of `A|B|C` the text of A, of B 1,000 times, and of C; of `A|B|C|D|E` the same with D, too. Where nothing stands
/// before the first bar, it is 500 times: so deep the terms are nested.
pub(crate) fn expanded(alloc: Global, text: &str) -> Option<String> {
    let mut whole = String::new(alloc);
    if is_expanded(&mut whole, text) {
        Some(whole)
    } else {
        drop(whole);
        None
    }
}

/// Whether each second bar has a part behind it, and memory was there for all.
fn is_expanded(whole: &mut String, text: &str) -> bool {
    let count = if text.as_bytes().starts_with(b"|") {
        500
    } else {
        1_000
    };
    let mut all = true;
    let mut many = false;
    for part in text.split('|') {
        let times = if many { count } else { 1 };
        all = all && is_repeated(whole, part, times);
        many = !many;
    }
    all && many
}

fn is_repeated(whole: &mut String, part: &str, count: u32) -> bool {
    let mut all = true;
    for _ in 0..count {
        all = all && whole.push_str(part).is_ok();
    }
    all
}

/// The sort that a text names, and the rest: an object where it names none.
fn sort_of(text: &str) -> (&str, &str) {
    match text.split_once(' ') {
        Some((sort, rest)) => match sort {
            "family" | "kind" | "class" | "value" => (sort, rest),
            _ => ("", text),
        },
        None => ("", text),
    }
}

/// The term of a text: `family A`, `kind K`, `class C` and `value V` are of these sorts, all else is an object.
pub(crate) fn read_term(alloc: Global, text: &str) -> Option<Box<Term>> {
    let (sort, written) = sort_of(text);
    let whole = expanded(alloc, written)?;
    term_of(alloc, sort, whole.as_str())
}

fn term_of(alloc: Global, sort: &str, text: &str) -> Option<Box<Term>> {
    match sort {
        "family" => boxed(alloc, Term::Family(family(alloc, "", text)?)),
        "kind" => boxed(alloc, Term::Kind(kind(alloc, "", text)?)),
        "class" => boxed(alloc, Term::Class(class(alloc, text)?)),
        "value" => boxed(alloc, Term::Value(value(alloc, text)?)),
        _ => boxed(alloc, Term::Object(object(alloc, "", text)?)),
    }
}

fn boxed(alloc: Global, term: Term) -> Option<Box<Term>> {
    Box::new(alloc, term).ok()
}

fn object_term(alloc: Global, object: Obj) -> Option<Box<Term>> {
    boxed(alloc, Term::Object(Box::new(alloc, object).ok()?))
}

fn family_term(alloc: Global, family: Fam) -> Option<Box<Term>> {
    boxed(alloc, Term::Family(Box::new(alloc, family).ok()?))
}

fn kind_term(alloc: Global, kind: Kind) -> Option<Box<Term>> {
    boxed(alloc, Term::Kind(Box::new(alloc, kind).ok()?))
}

fn class_term(alloc: Global, class: Class) -> Option<Box<Term>> {
    boxed(alloc, Term::Class(Box::new(alloc, class).ok()?))
}

fn value_term(alloc: Global, value: Value) -> Option<Box<Term>> {
    boxed(alloc, Term::Value(Box::new(alloc, value).ok()?))
}

pub(crate) fn same(a: &Term, b: &Term) -> bool {
    match (a, b) {
        (Term::Object(a), Term::Object(b)) => same_obj(a, b),
        (Term::Family(a), Term::Family(b)) => same_fam(a, b),
        (Term::Kind(a), Term::Kind(b)) => same_kind(a, b),
        (Term::Class(a), Term::Class(b)) => same_class(a, b),
        (Term::Value(a), Term::Value(b)) => same_value(a, b),
        _ => false,
    }
}

pub(crate) fn copied(alloc: Global, term: &Term) -> Option<Box<Term>> {
    match term {
        Term::Object(m) => object_term(alloc, m.copy(alloc).ok()?),
        Term::Family(a) => family_term(alloc, a.copy(alloc).ok()?),
        Term::Kind(k) => kind_term(alloc, k.copy(alloc).ok()?),
        Term::Class(c) => class_term(alloc, c.copy(alloc).ok()?),
        Term::Value(v) => value_term(alloc, v.copy(alloc).ok()?),
    }
}

/// An object, a family or a kind with its variables raised.
pub(crate) fn raised(alloc: Global, term: &Term, by: u32, from: u32) -> Option<Box<Term>> {
    match term {
        Term::Object(m) => object_term(alloc, shift_obj(alloc, m, by, from).ok()?),
        Term::Family(a) => family_term(alloc, shift_fam(alloc, a, by, from).ok()?),
        Term::Kind(k) => kind_term(alloc, shift_kind(alloc, k, by, from).ok()?),
        other => copied(alloc, other),
    }
}

/// An object, a family or a kind with a value substituted in it.
pub(crate) fn substituted(
    alloc: Global,
    value: &Obj,
    simple: &Simple,
    at: u32,
    term: &Term,
) -> Option<Box<Term>> {
    match term {
        Term::Object(m) => object_term(alloc, subst_obj(alloc, value, simple, at, m).ok()?),
        Term::Family(a) => family_term(alloc, subst_fam(alloc, value, simple, at, a).ok()?),
        Term::Kind(k) => kind_term(alloc, subst_kind(alloc, value, simple, at, k).ok()?),
        other => copied(alloc, other),
    }
}

/// A term translated; where there is none, why.
pub(crate) fn translated(
    alloc: Global,
    map: &HeadMap,
    term: &Term,
) -> Result<Option<Box<Term>>, TranslateFault> {
    match term {
        Term::Object(m) => Ok(object_term(alloc, translate_obj(alloc, map, m)?)),
        Term::Family(a) => Ok(family_term(alloc, translate_fam(alloc, map, a)?)),
        Term::Kind(k) => Ok(kind_term(alloc, translate_kind(alloc, map, k)?)),
        Term::Class(c) => Ok(class_term(alloc, translate_class(alloc, map, c)?)),
        Term::Value(v) => Ok(value_term(alloc, translate_value(alloc, map, v)?)),
    }
}

/// Whether a term that was found is that of a text.
pub(crate) fn is_wanted(alloc: Global, found: Option<Box<Term>>, text: &str) -> bool {
    let wanted = read_term(alloc, text);
    match (&found, &wanted) {
        (Some(found), Some(wanted)) => same(found, wanted),
        _ => false,
    }
}

/// Whether two texts are of the same term.
pub(crate) fn are_same(alloc: Global, text: &str, other: &str) -> bool {
    is_wanted(alloc, read_term(alloc, text), other)
}

/// Whether a copy of the term, or of `constant C`, is the same.
pub(crate) fn is_copied(alloc: Global, text: &str) -> bool {
    match text.strip_prefix("constant ") {
        Some(name) => is_name_copied(alloc, name),
        None => is_term_copied(alloc, text),
    }
}

fn is_name_copied(alloc: Global, text: &str) -> bool {
    match constant(alloc, text) {
        Some(name) => is_same_name(&name, &name.copy(alloc)),
        None => false,
    }
}

fn is_same_name(name: &QName, copy: &Result<QName, Memory>) -> bool {
    match copy {
        Ok(copy) => *copy == *name,
        Err(_) => false,
    }
}

fn is_term_copied(alloc: Global, text: &str) -> bool {
    let term = read_term(alloc, text);
    match &term {
        Some(read) => is_wanted_copy(read, copied(alloc, read)),
        None => false,
    }
}

fn is_wanted_copy(term: &Term, copy: Option<Box<Term>>) -> bool {
    match &copy {
        Some(copy) => same(term, copy),
        None => false,
    }
}

//! Reading of a term, a word and a sign at a time. What fails is noted, and reading goes on: so no call lets anything go, which would
//! be proved for each value at hand.

use crate::calls::succeeds;
use crate::names::constant;
use lf_terms::{Fam, Head, Kind, Obj, Spine};
use std::alloc::Global;
use std::mem;

/// A head with the arguments so far. It is an object or a family, as its place wants.
#[derive(Drop)]
pub(crate) struct Headed {
    pub(crate) head: Head,
    pub(crate) spine: Spine,
}

/// A term that has been read whole. What it holds is boxed: a box is let go by a call, and a term by cases, which makes
/// proofs long.
#[derive(Drop)]
pub(crate) enum Term {
    Lambda(Box<Obj>),
    Headed(Box<Headed>),
    Product(Box<Fam>),
    Kind(Box<Kind>),
}

impl Term {
    pub(crate) fn into_object(self, alloc: Global) -> Option<Box<Obj>> {
        match self {
            Term::Lambda(object) => Some(object),
            Term::Headed(headed) => headed_object(alloc, headed),
            other => {
                drop(other);
                None
            }
        }
    }

    pub(crate) fn into_family(self, alloc: Global) -> Option<Box<Fam>> {
        match self {
            Term::Product(family) => Some(family),
            Term::Headed(headed) => headed_family(alloc, headed),
            other => {
                drop(other);
                None
            }
        }
    }

    pub(crate) fn into_kind(self) -> Option<Box<Kind>> {
        match self {
            Term::Kind(kind) => Some(kind),
            other => {
                drop(other);
                None
            }
        }
    }

    /// The arguments of a head.
    pub(crate) fn into_spine(self, alloc: Global) -> Option<Box<Spine>> {
        match self {
            Term::Headed(headed) => arguments(alloc, headed),
            other => {
                drop(other);
                None
            }
        }
    }
}

fn headed_object(alloc: Global, headed: Box<Headed>) -> Option<Box<Obj>> {
    let Headed { head, spine } = Box::into_inner(headed);
    Box::new(alloc, Obj::At { head, spine }).ok()
}

fn headed_family(alloc: Global, headed: Box<Headed>) -> Option<Box<Fam>> {
    let Headed { head, spine } = Box::into_inner(headed);
    match head {
        Head::Con(head) => Box::new(alloc, Fam::At { head, spine }).ok(),
        Head::Var(_) => {
            drop(spine);
            None
        }
    }
}

fn arguments(alloc: Global, headed: Box<Headed>) -> Option<Box<Spine>> {
    let Headed { head, spine } = Box::into_inner(headed);
    drop(head);
    Box::new(alloc, spine).ok()
}

/// What is not whole yet.
#[derive(Clone, Copy)]
enum Frame<'a> {
    /// A λ whose body is read.
    Lambda,
    /// A product whose domain is read, with the name of its variable.
    Domain(&'a str),
    /// A product whose body is read, and whose domain is the term before it.
    Product,
    /// An opening parenthesis.
    Open,
    /// The last term, which is whole up to further arguments.
    Term,
}

/// What a name is read as.
#[derive(Clone, Copy)]
enum Place {
    Term,
    LambdaName,
    ProductName,
}

/// The signs that end a word.
const SIGNS: [char; 9] = [' ', '\n', ':', ']', '(', '[', '{', ')', '}'];

/// What has been read.
#[derive(Drop)]
pub(crate) struct Reader<'a> {
    alloc: Global,
    frames: Vec<Frame<'a>>,
    /// The terms that are whole, the last one behind the others.
    terms: Vec<Term>,
    /// The names of the variables, the innermost last.
    scope: Vec<&'a str>,
    place: Place,
    /// Whether all that was read so far can be a part of a term, and memory was there for it.
    is_well: bool,
}

impl<'a> Reader<'a> {
    /// Nothing yet.
    pub(crate) fn new(alloc: Global) -> Reader<'a> {
        Reader {
            alloc,
            frames: Vec::new(alloc),
            terms: Vec::new(alloc),
            scope: Vec::new(alloc),
            place: Place::Term,
            is_well: true,
        }
    }

    /// Free variables have the names of a text, the innermost last.
    pub(crate) fn enter_all(&mut self, free: &'a str) {
        for name in free.split_whitespace() {
            self.enter(name);
        }
    }

    /// Takes a text, each word with the sign that ends it.
    pub(crate) fn take(&mut self, text: &'a str) {
        for piece in text.split_inclusive(SIGNS) {
            self.take_word(piece.trim_end_matches(SIGNS));
            self.take_sign(piece);
        }
    }

    /// The term that all together make.
    pub(crate) fn finish(&mut self) -> Option<Term> {
        self.close();
        if self.is_well && self.frames.is_empty() {
            self.terms.pop()
        } else {
            None
        }
    }

    /// A variable of that name is the innermost from here on.
    fn enter(&mut self, name: &'a str) {
        self.is_well &= succeeds(self.scope.push(name));
    }

    fn open(&mut self, frame: Frame<'a>) {
        self.is_well &= succeeds(self.frames.push(frame));
    }

    fn put(&mut self, term: Option<Term>) {
        match term {
            Some(term) => self.is_well &= succeeds(self.terms.push(term)),
            None => self.is_well = false,
        }
    }

    /// The sign at the end of a piece.
    fn take_sign(&mut self, piece: &str) {
        match piece.as_bytes().last() {
            Some(b'(') => self.open(Frame::Open),
            Some(b'[') => self.place = Place::LambdaName,
            Some(b'{') => self.place = Place::ProductName,
            Some(b')') | Some(b'}') => {
                self.close();
                self.closed();
            }
            _ => {}
        }
    }

    fn take_word(&mut self, word: &'a str) {
        if word.is_empty() {
            return;
        }
        match mem::replace(&mut self.place, Place::Term) {
            Place::Term => self.take_part(word),
            Place::LambdaName => {
                self.enter(word);
                self.open(Frame::Lambda);
            }
            Place::ProductName => self.open(Frame::Domain(word)),
        }
    }

    /// A word that is a part of a term.
    fn take_part(&mut self, word: &'a str) {
        match word {
            "->" => self.take_arrow(),
            "type" => {
                let kind = least_kind(self.alloc);
                self.take_term(kind);
            }
            _ => {
                let headed = with_head(self.alloc, self.head(word));
                self.take_term(headed);
            }
        }
    }

    /// The head that a word names.
    fn head(&self, word: &str) -> Option<Head> {
        match word.strip_prefix('#') {
            Some(index) => Some(Head::Var(index.parse::<u32>().ok()?)),
            None => self.head_in_scope(word),
        }
    }

    fn head_in_scope(&self, word: &str) -> Option<Head> {
        match self.binders_between(word) {
            Some(between) => Some(Head::Var(between)),
            None => Some(Head::Con(constant(self.alloc, word)?)),
        }
    }

    /// How many binders are between a variable and its own.
    fn binders_between(&self, word: &str) -> Option<u32> {
        let mut between = 0u32;
        for &name in self.scope.as_slice().iter().rev() {
            if name == word {
                return Some(between);
            }
            between = between.saturating_add(1);
        }
        None
    }

    fn take_term(&mut self, term: Option<Term>) {
        self.put(term);
        self.settle();
    }

    /// The last term is whole: it is an argument where a head stands before it.
    fn settle(&mut self) {
        match self.frames.as_slice().last() {
            Some(Frame::Term) => self.apply(),
            _ => self.open(Frame::Term),
        }
    }

    /// The last term becomes an argument of the head before it.
    fn apply(&mut self) {
        match self.pop_object() {
            Some(argument) => {
                let before = self.terms.as_mut_slice().last_mut();
                self.is_well &= is_applied(before, argument);
            }
            None => self.is_well = false,
        }
    }

    fn pop_object(&mut self) -> Option<Box<Obj>> {
        match self.terms.pop() {
            Some(term) => term.into_object(self.alloc),
            None => None,
        }
    }

    fn pop_family(&mut self) -> Option<Box<Fam>> {
        match self.terms.pop() {
            Some(term) => term.into_family(self.alloc),
            None => None,
        }
    }

    /// The family before an arrow becomes the domain of a product.
    fn take_arrow(&mut self) {
        match self.frames.pop() {
            Some(Frame::Term) => self.open_product("->"),
            _ => self.is_well = false,
        }
    }

    /// The body of a product, whose domain is the last term, is read from here on.
    fn open_product(&mut self, name: &'a str) {
        self.open(Frame::Product);
        self.enter(name);
    }

    /// What is open up to the last opening bracket becomes one term.
    fn close(&mut self) {
        match self.frames.pop() {
            Some(Frame::Term) => self.close_all(),
            _ => self.is_well = false,
        }
    }

    fn close_all(&mut self) {
        for _ in 0..self.frames.len() {
            match self.frames.as_slice().last() {
                Some(Frame::Lambda) => self.close_lambda(),
                Some(Frame::Product) => self.close_product(),
                _ => return,
            }
            let _ = self.frames.pop();
            let _ = self.scope.pop();
        }
    }

    fn close_lambda(&mut self) {
        let body = self.pop_object();
        let lambda = lambda(self.alloc, body);
        self.put(lambda);
    }

    fn close_product(&mut self) {
        let body = self.terms.pop();
        match self.pop_family() {
            Some(domain) => {
                let product = product(self.alloc, domain, body);
                self.put(product);
            }
            None => {
                drop(body);
                self.is_well = false;
            }
        }
    }

    /// A term stood in a pair of brackets.
    fn closed(&mut self) {
        match self.frames.pop() {
            Some(Frame::Open) => self.settle(),
            Some(Frame::Domain(name)) => self.open_product(name),
            _ => self.is_well = false,
        }
    }
}

/// Whether an argument could be added to the term before it.
fn is_applied(before: Option<&mut Term>, argument: Box<Obj>) -> bool {
    match before {
        Some(Term::Headed(headed)) => headed.spine.add(Box::into_inner(argument)).is_ok(),
        _ => {
            drop(argument);
            false
        }
    }
}

fn least_kind(alloc: Global) -> Option<Term> {
    Some(Term::Kind(Box::new(alloc, Kind::Ty).ok()?))
}

fn with_head(alloc: Global, head: Option<Head>) -> Option<Term> {
    let head = head?;
    let spine = Spine::new(alloc);
    Some(Term::Headed(Box::new(alloc, Headed { head, spine }).ok()?))
}

fn lambda(alloc: Global, body: Option<Box<Obj>>) -> Option<Term> {
    let body = body?;
    Some(Term::Lambda(Box::new(alloc, Obj::Lam(body)).ok()?))
}

fn product(alloc: Global, domain: Box<Fam>, body: Option<Term>) -> Option<Term> {
    match body {
        Some(Term::Kind(kind)) => kind_product(alloc, domain, kind),
        Some(body) => family_product(alloc, domain, body),
        None => {
            drop(domain);
            None
        }
    }
}

fn kind_product(alloc: Global, domain: Box<Fam>, kind: Box<Kind>) -> Option<Term> {
    Some(Term::Kind(Box::new(alloc, Kind::Pi(domain, kind)).ok()?))
}

fn family_product(alloc: Global, domain: Box<Fam>, body: Term) -> Option<Term> {
    match body.into_family(alloc) {
        Some(body) => Some(Term::Product(Box::new(alloc, Fam::Pi(domain, body)).ok()?)),
        None => {
            drop(domain);
            None
        }
    }
}

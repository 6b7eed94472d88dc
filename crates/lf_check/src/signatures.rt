//! Flat signatures, declaration by declaration.
ghost use Rattle.std.specs.Prelude.{◌≡◌, [], IfErr, OnOk, Option, nat_eq, take};
ghost use Rattle.lf_meaning.specs.Terms.{domain_count, with_domains};
ghost use Rattle.lf_meaning.specs.Judgements.{IsSignature};
ghost use Rattle.lf_meaning.specs.Faults.{BadDeclaration, Fault, bad_at, class_fault, declaration_fault, family_fault, same_fault, signature_fault, value_fault};
ghost use Rattle.lf_meaning.specs.Signatures.{class_of};
ghost use Rattle.term_trees.specs.Readings.{read_class, read_constant, read_declaration, read_family, read_kind, read_signature, read_value};
ghost use Rattle.lf_check.specs.Answers.{AnswersSignature, IsBadOf, IsFirstBad, RefutesSignature};
ghost use Rattle.lf_check.specs.Environments.{context_over, signature_over};
ghost use Rattle.lf_check.specs.Stops.{Checked, Stops};

use crate::environment::Environment;
use crate::families::{check_family, check_kind_over};
use crate::objects::check_object;
use crate::stops::{FaultKind, Stop, inside};
use crate::{LfFault, SigFault};
use lf_terms::{Class, Ctx, Fam, FlatDecl, FlatSig, Kind, QName, Value, same_class};
use std::alloc::Global;

/// Whether a signature is well typed: each declaration, over the undefined ones before it, has a family or a kind as
/// its class and, where it is defined, a value that fits the class. Ok exactly where it is; else the first bad
/// declaration with its first fault, or want of memory.
pub fn check_sig(alloc: Global, sig: &FlatSig) -> Result<(), SigFault>
    ensures answer { AnswersSignature result (signature_fault (read_signature sig.now)) }
    ensures accepted { OnOk result (IsSignature (read_signature sig.now)) }
    ensures refused { IfErr result (λ fault. RefutesSignature fault (IsSignature (read_signature sig.now))) }
    ensures first { IfErr result (λ fault. IsBadOf fault (read_signature sig.now)) }
{
    for index in 0..sig.len() {
        if let Some(decl) = sig.at(index) {
            if let Err(stop) = check_declaration(alloc, sig, index, decl) {
                return Err(in_declaration(index, stop));
            }
        }
    }
    Ok(())
}

/// The fault of the declaration at an index.
fn in_declaration(index: usize, stop: Stop) -> SigFault
    ensures { (first : Option Fault) (later : Option BadDeclaration) → Stops stop first → IsFirstBad result (bad_at index first later) }
{
    match stop.into_fault() {
        LfFault::Memory => SigFault::Memory,
        fault => SigFault::Bad { index, fault },
    }
}

/// Whether a declaration is one over those before an index.
fn check_declaration(
    alloc: Global,
    sig: &FlatSig,
    index: usize,
    decl: &FlatDecl,
) -> Result<(), Stop>
    ensures { Checked result (declaration_fault (read_signature (take index sig.now)) (read_declaration decl.now)) }
{
    let empty = Ctx::new(alloc);
    let environment = Environment::before(sig, index, &empty);
    inside(0, check_class(alloc, &environment, &decl.class))?;
    match &decl.value {
        None => Ok(()),
        Some(value) => {
            let checked = check_value(alloc, &environment, value, &decl.class);
            inside(1, checked)
        }
    }
}

/// Whether a class is a family or a kind in no context.
fn check_class(alloc: Global, environment: &Environment<'_>, class: &Class) -> Result<(), Stop>
    requires { context_over environment.now ≡ [] }
    ensures { Checked result (class_fault (signature_over environment.now) (read_class class.now)) }
{
    match class {
        Class::Fam(family) => check_family(alloc, environment, family),
        Class::Kind(kind) => check_kind_over(alloc, environment, kind),
    }
}

/// Whether a value fits a class.
fn check_value(
    alloc: Global,
    environment: &Environment<'_>,
    value: &Value,
    class: &Class,
) -> Result<(), Stop>
    requires { context_over environment.now ≡ [] }
    ensures { Checked result (value_fault (signature_over environment.now) (read_value value.now) (read_class class.now)) }
{
    match (value, class) {
        (Value::Same(constant), _) => check_same(alloc, environment, constant, class),
        (Value::Term(object), Class::Fam(family)) => check_object(
            alloc,
            environment,
            object,
            family,
        ),
        (Value::Fam { binders, body }, Class::Kind(kind)) if has_domains(kind, *binders) => {
            check_behind(alloc, environment, kind, body)
        }
        (Value::Fam { .. }, Class::Kind(_)) => Err(Stop::here(alloc, FaultKind::Mismatch)),
        (Value::Term(_), Class::Kind(_)) => Err(Stop::here(alloc, FaultKind::Level)),
        (Value::Fam { .. }, Class::Fam(_)) => Err(Stop::here(alloc, FaultKind::Level)),
    }
}

/// Whether a name is a constant of that classifier.
fn check_same(
    alloc: Global,
    environment: &Environment<'_>,
    constant: &QName,
    class: &Class,
) -> Result<(), Stop>
    ensures { Checked result (same_fault (class_of (signature_over environment.now) (read_constant constant.now)) (read_class class.now)) }
{
    let Some(found) = environment.class(constant) else {
        return Err(Stop::here(alloc, FaultKind::UnknownConstant));
    };
    match (found, class) {
        (Class::Fam(_), Class::Kind(_)) => Err(Stop::here(alloc, FaultKind::Level)),
        (Class::Kind(_), Class::Fam(_)) => Err(Stop::here(alloc, FaultKind::Level)),
        _ if same_class(found, class) => Ok(()),
        _ => Err(Stop::here(alloc, FaultKind::Mismatch)),
    }
}

/// Whether a kind has so many domains.
fn has_domains(kind: &Kind, count: u32) -> bool
    ensures { result ≡ nat_eq count (domain_count (read_kind kind.now)) }
{
    match kind {
        Kind::Ty => count == 0,
        Kind::Pi(_, body) => match count.checked_sub(1) {
            Some(left) => has_domains(body, left),
            None => false,
        },
    }
}

/// Whether a family is one behind the domains of a kind.
fn check_behind(
    alloc: Global,
    environment: &Environment<'_>,
    domains: &Kind,
    body: &Fam,
) -> Result<(), Stop>
    ensures { Checked result (family_fault (signature_over environment.now) (with_domains (read_kind domains.now) (context_over environment.now)) (read_family body.now)) }
{
    match domains {
        Kind::Ty => check_family(alloc, environment, body),
        Kind::Pi(domain, rest) => check_behind(alloc, &(&*environment).under(domain), rest, body),
    }
}

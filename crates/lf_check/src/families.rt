//! Families and kinds, and the kinds that families have.
ghost use Rattle.std.specs.Prelude.{◌≡◌, IfOk, Ok};
ghost use Rattle.lf_meaning.specs.Terms.{family_apply_all, FamilyCon};
ghost use Rattle.lf_meaning.specs.Erasure as erasure;
ghost use Rattle.lf_meaning.specs.Substitution.{substitute_kind};
ghost use Rattle.lf_meaning.specs.Signatures.{class_of};
ghost use Rattle.lf_meaning.specs.Faults.{family_application_answer, family_constant_answer, family_fault, kind_fault, object_fault, synthesised_kind};
ghost use Rattle.lf_meaning.specs.Faults as meant;
ghost use Rattle.term_trees.specs.Readings.{read_constant, read_family, read_kind, read_object, read_objects};
ghost use Rattle.lf_check.specs.Environments.{context_over, signature_over};
ghost use Rattle.lf_check.specs.Stops.{Checked, Found};

use crate::environment::Environment;
use crate::objects::check_object;
use crate::stops::{FaultKind, Stop, inside};
use hereditary_subst::subst_kind;
use lf_terms::{Class, Fam, Kind, Memory, Obj, QName, erase};
use std::alloc::Global;

/// Whether a family is one of the environment.
pub(crate) fn check_family(
    alloc: Global,
    environment: &Environment<'_>,
    family: &Fam,
) -> Result<(), Stop>
    ensures { Checked result (family_fault (signature_over environment.now) (context_over environment.now) (read_family family.now)) }
{
    match family {
        Fam::Pi(domain, body) => {
            inside(0, check_family(alloc, environment, domain))?;
            let checked = check_family(alloc, &(&*environment).under(domain), body);
            inside(1, checked)
        }
        Fam::At { head, spine } => {
            let kind = synthesise_kind(alloc, environment, head, spine.as_slice())?;
            stands_at_type(alloc, &kind)
        }
    }
}

/// Whether a kind is one of the environment.
pub(crate) fn check_kind_over(
    alloc: Global,
    environment: &Environment<'_>,
    kind: &Kind,
) -> Result<(), Stop>
    ensures { Checked result (kind_fault (signature_over environment.now) (context_over environment.now) (read_kind kind.now)) }
{
    match kind {
        Kind::Ty => Ok(()),
        Kind::Pi(domain, body) => {
            inside(0, check_family(alloc, environment, domain))?;
            let checked = check_kind_over(alloc, &(&*environment).under(domain), body);
            inside(1, checked)
        }
    }
}

/// The kind that a family constant synthesises with its arguments, which it takes from left to right.
fn synthesise_kind(
    alloc: Global,
    environment: &Environment<'_>,
    head: &QName,
    spine: &[Obj],
) -> Result<Box<Kind>, Stop>
    ensures { Found (λ k. read_kind k.value) result (synthesised_kind (signature_over environment.now) (context_over environment.now) (family_apply_all (FamilyCon (read_constant head.now)) (read_objects spine.now))) }
{
    let mut kind = constant_kind(alloc, environment, head)?;
    for (i, argument) in spine.iter().enumerate() {
        kind = take_argument(alloc, environment, argument, 2 + i, &kind)?;
    }
    Ok(kind)
}

/// The kind so far takes an argument. The number is that of the argument in a path.
fn take_argument(
    alloc: Global,
    environment: &Environment<'_>,
    argument: &Obj,
    step: usize,
    kind: &Kind,
) -> Result<Box<Kind>, Stop>
    ensures { Found (λ k. read_kind k.value) result (family_application_answer (Ok (read_kind kind.now)) step (read_object argument.now) (object_fault (signature_over environment.now) (context_over environment.now) (read_object argument.now))) }
{
    match kind {
        Kind::Pi(domain, body) => {
            inside(step, check_object(alloc, environment, argument, domain))?;
            Ok(applied(alloc, argument, domain, body)?)
        }
        Kind::Ty => Err(Stop::here(alloc, FaultKind::NotAFunction).inside(step)),
    }
}

/// The body of a Π with the argument substituted at the erasure of the domain.
fn applied(alloc: Global, argument: &Obj, domain: &Fam, body: &Kind) -> Result<Box<Kind>, Memory>
    ensures { IfOk result (λ k. read_kind k.value ≡ substitute_kind (read_object argument.now) (erasure.erase (read_family domain.now)) 0 (read_kind body.now)) }
{
    let simple = Box::new(alloc, erase(alloc, domain)?)?;
    Ok(Box::new(alloc, subst_kind(alloc, argument, &simple, 0, body)?)?)
}

/// The kind of a family constant.
fn constant_kind(
    alloc: Global,
    environment: &Environment<'_>,
    constant: &QName,
) -> Result<Box<Kind>, Stop>
    ensures { Found (λ k. read_kind k.value) result (family_constant_answer (class_of (signature_over environment.now) (read_constant constant.now))) }
{
    match environment.class(constant) {
        Some(Class::Kind(kind)) => Ok(Box::new(alloc, kind.copy(alloc)?)?),
        Some(Class::Fam(_)) => Err(Stop::here(alloc, FaultKind::Level)),
        None => Err(Stop::here(alloc, FaultKind::UnknownConstant)),
    }
}

/// Whether an atomic family with that kind left is a family.
fn stands_at_type(alloc: Global, kind: &Kind) -> Result<(), Stop>
    ensures { Checked result (meant.stands_at_type (Ok (read_kind kind.now))) }
{
    match kind {
        Kind::Ty => Ok(()),
        Kind::Pi(_, _) => Err(Stop::here(alloc, FaultKind::NotCanonical)),
    }
}

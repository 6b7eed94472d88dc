//! Objects and the families that they have.
ghost use Rattle.std.specs.Prelude.{◌≡◌, IfOk, Ok, slice_get};
ghost use Rattle.lf_meaning.specs.Terms.{apply_all};
ghost use Rattle.lf_meaning.specs.Erasure as erasure;
ghost use Rattle.lf_meaning.specs.Signatures.{class_of};
ghost use Rattle.lf_meaning.specs.Substitution.{substitute_family};
ghost use Rattle.lf_meaning.specs.Faults.{application_answer, constant_answer, object_fault, synthesised, variable_answer};
ghost use Rattle.lf_meaning.specs.Faults as meant;
ghost use Rattle.term_trees.specs.Readings.{read_constant, read_family, read_head, read_object, read_objects};
ghost use Rattle.lf_check.specs.Environments.{context_over, signature_over};
ghost use Rattle.lf_check.specs.Stops.{Checked, Found};

use crate::environment::Environment;
use crate::stops::{FaultKind, Stop, inside};
use hereditary_subst::subst_fam;
use lf_terms::{Class, Fam, Head, Memory, Obj, QName, erase, same_fam, shift_fam};
use std::alloc::Global;

/// Whether an object checks against a family.
#[cycle(objects)]
pub(crate) fn check_object(
    alloc: Global,
    environment: &Environment<'_>,
    object: &Obj,
    family: &Fam,
) -> Result<(), Stop>
    ensures { Checked result (object_fault (signature_over environment.now) (context_over environment.now) (read_object object.now) (read_family family.now)) }
{
    match (object, family) {
        (Obj::Lam(body), Fam::Pi(domain, codomain)) => {
            let checked = check_object(alloc, &(&*environment).under(domain), body, codomain);
            inside(0, checked)
        }
        (Obj::Lam(_), Fam::At { .. }) => Err(Stop::here(alloc, FaultKind::Mismatch)),
        (Obj::At { head, spine }, _) => {
            let found = synthesise(alloc, environment, head, spine.as_slice())?;
            stands_at(alloc, &found, family)
        }
    }
}

/// The family that a head synthesises with its arguments, which it takes from left to right.
#[cycle(objects)]
pub(crate) fn synthesise(
    alloc: Global,
    environment: &Environment<'_>,
    head: &Head,
    spine: &[Obj],
) -> Result<Box<Fam>, Stop>
    ensures { Found (λ a. read_family a.value) result (synthesised (signature_over environment.now) (context_over environment.now) (apply_all (read_head head.now) (read_objects spine.now))) }
{
    let mut classifier = head_family(alloc, environment, head)?;
    for (i, argument) in spine.iter().enumerate() {
        classifier = take_argument(alloc, environment, argument, 2 + i, &classifier)?;
    }
    Ok(classifier)
}

/// The classifier so far takes an argument. The number is that of the argument in a path.
#[cycle(objects)]
fn take_argument(
    alloc: Global,
    environment: &Environment<'_>,
    argument: &Obj,
    step: usize,
    classifier: &Fam,
) -> Result<Box<Fam>, Stop>
    ensures { Found (λ a. read_family a.value) result (application_answer (Ok (read_family classifier.now)) step (read_object argument.now) (object_fault (signature_over environment.now) (context_over environment.now) (read_object argument.now))) }
{
    match classifier {
        Fam::Pi(domain, body) => {
            inside(step, check_object(alloc, environment, argument, domain))?;
            Ok(applied(alloc, argument, domain, body)?)
        }
        Fam::At { .. } => Err(Stop::here(alloc, FaultKind::NotAFunction).inside(step)),
    }
}

/// The body of a Π with the argument substituted at the erasure of the domain.
fn applied(alloc: Global, argument: &Obj, domain: &Fam, body: &Fam) -> Result<Box<Fam>, Memory>
    ensures { IfOk result (λ a. read_family a.value ≡ substitute_family (read_object argument.now) (erasure.erase (read_family domain.now)) 0 (read_family body.now)) }
{
    let simple = Box::new(alloc, erase(alloc, domain)?)?;
    Ok(Box::new(alloc, subst_fam(alloc, argument, &simple, 0, body)?)?)
}

/// The family of a head without arguments.
fn head_family(alloc: Global, environment: &Environment<'_>, head: &Head) -> Result<Box<Fam>, Stop>
    ensures { Found (λ a. read_family a.value) result (synthesised (signature_over environment.now) (context_over environment.now) (read_head head.now)) }
{
    match head {
        Head::Var(index) => variable_family(alloc, environment, *index),
        Head::Con(constant) => constant_family(alloc, environment, constant),
    }
}

/// The family of a variable, raised to its place.
fn variable_family(
    alloc: Global,
    environment: &Environment<'_>,
    index: u32,
) -> Result<Box<Fam>, Stop>
    ensures { Found (λ a. read_family a.value) result (variable_answer (slice_get (context_over environment.now) index) index) }
{
    let Some(family) = environment.family(index) else {
        return Err(Stop::here(alloc, FaultKind::UnknownConstant));
    };
    let by = index.checked_add(1).ok_or(Memory)?;
    Ok(Box::new(alloc, shift_fam(alloc, family, by, 0)?)?)
}

/// The family of a constant.
fn constant_family(
    alloc: Global,
    environment: &Environment<'_>,
    constant: &QName,
) -> Result<Box<Fam>, Stop>
    ensures { Found (λ a. read_family a.value) result (constant_answer (class_of (signature_over environment.now) (read_constant constant.now))) }
{
    match environment.class(constant) {
        Some(Class::Fam(family)) => Ok(Box::new(alloc, family.copy(alloc)?)?),
        Some(Class::Kind(_)) => Err(Stop::here(alloc, FaultKind::Level)),
        None => Err(Stop::here(alloc, FaultKind::UnknownConstant)),
    }
}

/// Whether an atomic object that synthesises one family stands at another.
fn stands_at(alloc: Global, found: &Fam, family: &Fam) -> Result<(), Stop>
    ensures { Checked result (meant.stands_at (Ok (read_family found.now)) (read_family family.now)) }
{
    match family {
        Fam::Pi(_, _) => Err(Stop::here(alloc, FaultKind::NotCanonical)),
        Fam::At { .. } if same_fam(found, family) => Ok(()),
        Fam::At { .. } => Err(Stop::here(alloc, FaultKind::Mismatch)),
    }
}

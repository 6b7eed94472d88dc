//! The judgements about terms, over a signature and a context.
ghost use Rattle.std.specs.Prelude.{◌≡◌, IfErr, IfOk, OnOk, Option};
ghost use Rattle.lf_meaning.specs.Terms.{apply_all, Family};
ghost use Rattle.lf_meaning.specs.Judgements.{Checks, IsFamily, IsKind, Synthesises};
ghost use Rattle.lf_meaning.specs.Faults.{Fault, family_fault, kind_fault, object_fault, synthesised};
ghost use Rattle.term_trees.specs.Readings.{read_context, read_family, read_head, read_kind, read_object, read_objects, read_signature};
ghost use Rattle.lf_check.specs.Answers.{Answers, AnswersWith, Refutes};
ghost use Rattle.lf_check.specs.Stops.{Checked};

use crate::LfFault;
use crate::environment::Environment;
use crate::families::{check_family, check_kind_over};
use crate::objects::{check_object, synthesise};
use crate::stops::Stop;
use lf_terms::{Ctx, Fam, FlatSig, Head, Kind, Obj};
use std::alloc::Global;

/// Whether an object checks against a family (Harper and Licata 2007, section 2). Ok exactly where it does; else the
/// first fault of the object, or want of memory. The family is taken as it is.
pub fn check_obj(
    alloc: Global,
    sig: &FlatSig,
    ctx: &Ctx,
    obj: &Obj,
    fam: &Fam,
) -> Result<(), LfFault>
    ensures answer { Answers result (object_fault (read_signature sig.now) (read_context ctx.now) (read_object obj.now) (read_family fam.now)) }
    ensures accepted { OnOk result (Checks (read_signature sig.now) (read_context ctx.now) (read_object obj.now) (read_family fam.now)) }
    ensures refused { IfErr result (λ fault. Refutes fault (Checks (read_signature sig.now) (read_context ctx.now) (read_object obj.now) (read_family fam.now))) }
{
    finish(check_object(alloc, &Environment::new(sig, ctx), obj, fam))
}

/// The family that a head synthesises with its arguments. Ok exactly where it synthesises one; else the first fault, or
/// want of memory.
pub fn synth(
    alloc: Global,
    sig: &FlatSig,
    ctx: &Ctx,
    head: &Head,
    spine: &[Obj],
) -> Result<Fam, LfFault>
    ensures answer { AnswersWith read_family result (synthesised (read_signature sig.now) (read_context ctx.now) (apply_all (read_head head.now) (read_objects spine.now))) }
    ensures accepted { IfOk result (λ fam. Synthesises (read_signature sig.now) (read_context ctx.now) (apply_all (read_head head.now) (read_objects spine.now)) (read_family fam)) }
    ensures refused { IfErr result (λ fault. Refutes fault ((a : Family) × Synthesises (read_signature sig.now) (read_context ctx.now) (apply_all (read_head head.now) (read_objects spine.now)) a)) }
{
    match synthesise(alloc, &Environment::new(sig, ctx), head, spine) {
        Ok(family) => Ok(Box::into_inner(family)),
        Err(stop) => Err(stop.into_fault()),
    }
}

/// Whether a family is one in the context. Ok exactly where it is; else its first fault, or want of memory.
pub fn check_fam(alloc: Global, sig: &FlatSig, ctx: &Ctx, fam: &Fam) -> Result<(), LfFault>
    ensures answer { Answers result (family_fault (read_signature sig.now) (read_context ctx.now) (read_family fam.now)) }
    ensures accepted { OnOk result (IsFamily (read_signature sig.now) (read_context ctx.now) (read_family fam.now)) }
    ensures refused { IfErr result (λ fault. Refutes fault (IsFamily (read_signature sig.now) (read_context ctx.now) (read_family fam.now))) }
{
    finish(check_family(alloc, &Environment::new(sig, ctx), fam))
}

/// Whether a kind is one in the context. Ok exactly where it is; else its first fault, or want of memory.
pub fn check_kind(alloc: Global, sig: &FlatSig, ctx: &Ctx, kind: &Kind) -> Result<(), LfFault>
    ensures answer { Answers result (kind_fault (read_signature sig.now) (read_context ctx.now) (read_kind kind.now)) }
    ensures accepted { OnOk result (IsKind (read_signature sig.now) (read_context ctx.now) (read_kind kind.now)) }
    ensures refused { IfErr result (λ fault. Refutes fault (IsKind (read_signature sig.now) (read_context ctx.now) (read_kind kind.now))) }
{
    finish(check_kind_over(alloc, &Environment::new(sig, ctx), kind))
}

/// The answer with its path from the outside in.
fn finish(checked: Result<(), Stop>) -> Result<(), LfFault>
    ensures { (first : Option Fault) → Checked checked first → Answers result first }
{
    match checked {
        Ok(()) => Ok(()),
        Err(stop) => Err(stop.into_fault()),
    }
}

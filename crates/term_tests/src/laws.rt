//! The laws over terms in memory, each beside the calls that it speaks of: substitution keeps typing, substitutions commute, and typed
//! maps carry typing.
ghost use Rattle.std.specs.Prelude.{◌≡◌, ◌∷◌, ◌++◌, IfOk};
ghost use Rattle.lf_meaning.specs.Terms.{Simple as SimpleType, SimpleContext};
ghost use Rattle.lf_meaning.specs.Erasure.{erase as erased};
ghost use Rattle.lf_meaning.specs.Substitution.{substitute, substitute_context};
ghost use Rattle.lf_meaning.specs.Judgements.{Checks, IsSignature, IsTyping};
ghost use Rattle.lf_meaning.specs.Sorts.{HasSort, Sorts};
ghost use Rattle.translation_typing.specs.TypedTranslation.{IsTypedTranslation, translate_context};
ghost use Rattle.term_trees.specs.Readings.{read_context, read_family, read_map, read_object, read_signature, read_simple};

use crate::rows::{Row, file};
use hereditary_subst::{subst_fam, subst_obj};
use lf_check::{check_fam, check_obj, check_sig};
use lf_laws::{law_commute, law_subst, law_translate};
use lf_terms::{Ctx, Fam, FlatSig, HeadMap, Memory, Obj, Simple, erase, same_fam, same_obj};
use lf_translate::{TranslateFault, translate_fam, translate_obj};
use std::alloc::Global;
use test_texts::found::{context, family, map, object, signature, simple};
use test_texts::{Case, succeeds};

/// An object at a family.
#[derive(Drop)]
struct Judgement {
    object: Obj,
    family: Fam,
}

/// The judgement of `M : A`.
fn read_judgement(alloc: Global, text: &str) -> Option<Box<Judgement>> {
    let (object_text, family_text) = text.split_once(" : ")?;
    let object = object(alloc, "", object_text)?;
    match family(alloc, "", family_text) {
        Some(family) => {
            let object = Box::into_inner(object);
            let family = Box::into_inner(family);
            Box::new(alloc, Judgement { object, family }).ok()
        }
        None => {
            drop(object);
            None
        }
    }
}

fn same(one: &Judgement, other: &Judgement) -> bool {
    same_obj(&one.object, &other.object) && same_fam(&one.family, &other.family)
}

/// Whether the signature is well typed, the family is one in the context, and the object checks against it.
fn is_typed(alloc: Global, sig: &FlatSig, ctx: &Ctx, judgement: &Judgement) -> bool {
    succeeds(check_sig(alloc, sig))
        && succeeds(check_fam(alloc, sig, ctx, &judgement.family))
        && succeeds(check_obj(alloc, sig, ctx, &judgement.object, &judgement.family))
}

/// The judgement with the value substituted for the variable behind those of `after`. It is a typing judgement again.
fn substituted(
    alloc: Global,
    sig: &FlatSig,
    ctx: &Ctx,
    after: &Ctx,
    value: &Judgement,
    into: &Judgement,
) -> Result<Box<Judgement>, Memory>
    ensures { IfOk result (λ found. IsSignature (read_signature sig.now)
        → Checks (read_signature sig.now) (read_context ctx.now) (read_object value.now.object) (read_family value.now.family)
        → IsTyping (read_signature sig.now) (read_context after.now ++ read_family value.now.family ∷ read_context ctx.now) (read_object into.now.object) (read_family into.now.family)
        → IsTyping (read_signature sig.now) (substitute_context (read_object value.now.object) (erased (read_family value.now.family)) (read_context after.now) ++ read_context ctx.now)
        (read_object found.value.object) (read_family found.value.family)) }
{
    let Ok(at) = u32::try_from(after.len()) else {
        return Err(Memory);
    };
    let simple = erase(alloc, &value.family)?;
    let object = subst_obj(alloc, &value.object, &simple, at, &into.object)?;
    let family = subst_fam(alloc, &value.object, &simple, at, &into.family)?;
    law_subst(
        sig,
        ctx,
        after,
        &value.object,
        &value.family,
        &into.object,
        &into.family,
    );
    Ok(Box::new(alloc, Judgement { object, family })?)
}

/// The inner value substituted first, and then the outer one.
fn inner_first(
    alloc: Global,
    outer: &Obj,
    outer_type: &Simple,
    inner: &Obj,
    inner_type: &Simple,
    into: &Obj,
) -> Result<Box<Obj>, Memory>
    ensures { IfOk result (λ found. read_object found.value ≡ substitute (read_object outer.now) (read_simple outer_type.now) 0 (substitute (read_object inner.now) (read_simple inner_type.now) 0 (read_object into.now))) }
{
    let inside = subst_obj(alloc, inner, inner_type, 0, into)?;
    Ok(Box::new(alloc, subst_obj(alloc, outer, outer_type, 0, &inside)?)?)
}

/// The outer value substituted first, in the inner one too, and then what comes of the inner one.
fn outer_first(
    alloc: Global,
    outer: &Obj,
    outer_type: &Simple,
    inner: &Obj,
    inner_type: &Simple,
    into: &Obj,
) -> Result<Box<Obj>, Memory>
    ensures { IfOk result (λ found. read_object found.value ≡ substitute (substitute (read_object outer.now) (read_simple outer_type.now) 0 (read_object inner.now)) (read_simple inner_type.now) 0
        (substitute (read_object outer.now) (read_simple outer_type.now) 1 (read_object into.now))) }
{
    let raised = Box::new(alloc, subst_obj(alloc, outer, outer_type, 1, into)?)?;
    let value = subst_obj(alloc, outer, outer_type, 0, inner)?;
    Ok(Box::new(alloc, subst_obj(alloc, &value, inner_type, 0, &raised)?)?)
}

/// What comes of both orders of substitution. They come to the same.
fn in_both_orders(
    alloc: Global,
    outer: &Obj,
    outer_type: &Simple,
    inner: &Obj,
    inner_type: &Simple,
    into: &Obj,
) -> Result<(Box<Obj>, Box<Obj>), Memory>
    ensures { IfOk result (λ found. (sorts : Sorts) (context : SimpleContext) (sort : SimpleType)
        → HasSort sorts context (read_object outer.now) (read_simple outer_type.now)
        → HasSort sorts (read_simple outer_type.now ∷ context) (read_object inner.now) (read_simple inner_type.now)
        → HasSort sorts (read_simple inner_type.now ∷ read_simple outer_type.now ∷ context) (read_object into.now) sort
        → read_object found.0.value ≡ read_object found.1.value) }
{
    let first = inner_first(alloc, outer, outer_type, inner, inner_type, into)?;
    let second = outer_first(alloc, outer, outer_type, inner, inner_type, into)?;
    law_commute(outer, outer_type, inner, inner_type, into);
    Ok((first, second))
}

/// Whether the judgement of a text is typed.
fn is_typed_text(alloc: Global, sig: &FlatSig, ctx: &Ctx, text: &str) -> bool {
    match read_judgement(alloc, text) {
        Some(judgement) => is_typed(alloc, sig, ctx, &judgement),
        None => false,
    }
}

/// Whether the judgement of a text is typed in the context of another text.
fn is_typed_behind(alloc: Global, sig: &FlatSig, before: &str, text: &str) -> bool {
    match context(alloc, before) {
        Some(ctx) => is_typed_text(alloc, sig, &ctx, text),
        None => false,
    }
}

/// Whether the value and the judgement are typed, the judgement behind a variable of the value's family and those of a context.
fn are_typed(alloc: Global, sig: &FlatSig, row: Row<'_>) -> bool {
    let Some((_, family)) = row.second.split_once(" : ") else {
        return false;
    };
    match format!(in alloc; "h : {family}\n{}", row.first) {
        Ok(whole) => {
            is_typed_behind(alloc, sig, whole.as_str(), row.third)
                && is_typed_behind(alloc, sig, "", row.second)
        }
        Err(_) => false,
    }
}

/// Whether the value substituted in the judgement gives the wanted one, and that is typed behind the variables of the context.
fn gives(alloc: Global, sig: &FlatSig, row: Row<'_>) -> bool {
    match context(alloc, row.first) {
        Some(after) => gives_behind(alloc, sig, &after, row),
        None => false,
    }
}

fn gives_behind(alloc: Global, sig: &FlatSig, after: &Ctx, row: Row<'_>) -> bool {
    let value = read_judgement(alloc, row.second);
    let into = read_judgement(alloc, row.third);
    match (&value, &into) {
        (Some(value), Some(into)) => {
            let before = Ctx::new(alloc);
            let found = substituted(alloc, sig, &before, after, value, into);
            is_found(alloc, sig, after, found, row.fourth)
        }
        _ => false,
    }
}

/// Whether what was found is typed, and the judgement of a text.
fn is_found(
    alloc: Global,
    sig: &FlatSig,
    ctx: &Ctx,
    found: Result<Box<Judgement>, Memory>,
    wanted: &str,
) -> bool {
    match found {
        Ok(found) => is_typed(alloc, sig, ctx, &found) && is_judgement(alloc, &found, wanted),
        Err(_) => false,
    }
}

fn is_judgement(alloc: Global, found: &Judgement, wanted: &str) -> bool {
    match read_judgement(alloc, wanted) {
        Some(wanted) => same(found, &wanted),
        None => false,
    }
}

/// Whether substitution keeps typing: the parts are a context after the variable, a value, a judgement and what is wanted.
pub(crate) fn keeps_typing(alloc: Global, written: &str, row: Row<'_>) -> bool {
    match signature(alloc, written) {
        Some(sig) => are_typed(alloc, &sig, row) && gives(alloc, &sig, row),
        None => false,
    }
}

/// A value at a simple type.
#[derive(Drop)]
struct Typed {
    value: Box<Obj>,
    simple: Box<Simple>,
}

/// The value of `M : A`, with the type to which A erases.
fn read_typed(alloc: Global, text: &str) -> Option<Typed> {
    let (value, written) = text.split_once(" : ")?;
    let value = object(alloc, "", value)?;
    match simple(alloc, written) {
        Some(simple) => Some(Typed { value, simple }),
        None => {
            drop(value);
            None
        }
    }
}

/// Whether both orders of substitution give the wanted object: of an outer value of a type, `M : A`, an inner one, and an object.
pub(crate) fn both_give(alloc: Global, row: Row<'_>) -> bool {
    let outer = read_typed(alloc, row.first);
    let inner = read_typed(alloc, row.second);
    match (&outer, &inner) {
        (Some(outer), Some(inner)) => both_give_in(alloc, outer, inner, row),
        _ => false,
    }
}

fn both_give_in(alloc: Global, outer: &Typed, inner: &Typed, row: Row<'_>) -> bool {
    match object(alloc, "", row.third) {
        Some(into) => {
            let found = in_both_orders(
                alloc,
                &outer.value,
                &outer.simple,
                &inner.value,
                &inner.simple,
                &into,
            );
            are_both(alloc, found, row.fourth)
        }
        None => false,
    }
}

fn are_both(alloc: Global, found: Result<(Box<Obj>, Box<Obj>), Memory>, wanted: &str) -> bool {
    let wanted = object(alloc, "", wanted);
    match (&found, &wanted) {
        (Ok(found), Some(wanted)) => same_obj(&found.0, wanted) && same_obj(&found.1, wanted),
        _ => false,
    }
}

/// The judgement translated along the map. It is a typing judgement again.
fn translated(
    alloc: Global,
    from: &FlatSig,
    to: &FlatSig,
    along: &HeadMap,
    ctx: &Ctx,
    judgement: &Judgement,
) -> Result<Box<Judgement>, TranslateFault>
    ensures { IfOk result (λ found. IsTypedTranslation (read_signature from.now) (read_signature to.now) (read_map along.now)
        → IsTyping (read_signature from.now) (read_context ctx.now) (read_object judgement.now.object) (read_family judgement.now.family)
        → IsTyping (read_signature to.now) (translate_context (read_map along.now) (read_context ctx.now)) (read_object found.value.object) (read_family found.value.family)) }
{
    let object = translate_obj(alloc, along, &judgement.object)?;
    let family = translate_fam(alloc, along, &judgement.family)?;
    law_translate(from, to, along, ctx, &judgement.object, &judgement.family);
    Ok(Box::new(alloc, Judgement { object, family })?)
}

/// What a case carries a judgement between: two signatures and a map.
#[derive(Drop)]
struct Way {
    from: Box<FlatSig>,
    to: Box<FlatSig>,
    along: Box<HeadMap>,
}

fn read_way(alloc: Global, case: &Case<'_>) -> Option<Way> {
    let from = signature(alloc, file(case, "from"))?;
    match signature(alloc, file(case, "to")) {
        Some(to) => way_along(from, to, map(alloc, file(case, "map"))),
        None => {
            drop(from);
            None
        }
    }
}

fn way_along(from: Box<FlatSig>, to: Box<FlatSig>, along: Option<Box<HeadMap>>) -> Option<Way> {
    match along {
        Some(along) => Some(Way { from, to, along }),
        None => {
            drop(from);
            drop(to);
            None
        }
    }
}

/// Whether the judgement is typed over the one signature, and what comes of it is the wanted one, typed over the other.
pub(crate) fn carries(alloc: Global, case: &Case<'_>, text: &str, wanted: &str) -> bool {
    match read_way(alloc, case) {
        Some(way) => carries_along(alloc, &way, text, wanted),
        None => false,
    }
}

fn carries_along(alloc: Global, way: &Way, text: &str, wanted: &str) -> bool {
    match read_judgement(alloc, text) {
        Some(given) => {
            let ctx = Ctx::new(alloc);
            let found = translated(alloc, &way.from, &way.to, &way.along, &ctx, &given);
            is_carried(alloc, &way.to, &ctx, found, wanted)
                && is_typed(alloc, &way.from, &ctx, &given)
        }
        None => false,
    }
}

fn is_carried(
    alloc: Global,
    to: &FlatSig,
    ctx: &Ctx,
    found: Result<Box<Judgement>, TranslateFault>,
    wanted: &str,
) -> bool {
    match found {
        Ok(found) => is_typed(alloc, to, ctx, &found) && is_judgement(alloc, &found, wanted),
        Err(fault) => {
            drop(fault);
            false
        }
    }
}

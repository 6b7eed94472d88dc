//! Translation of families and kinds.
ghost use Rattle.std.specs.Prelude.{◌≡◌, IfOk};
ghost use Rattle.lf_meaning.specs.Terms.{AtomicFamily};
ghost use Rattle.lf_meaning.specs.Erasure as erasure;
ghost use Rattle.lf_meaning.specs.Substitution.{substitute_family};
ghost use Rattle.translation_meaning.specs.Heads.{FamilyHead, family_takes, head_takes_all};
ghost use Rattle.translation_meaning.specs.Translation.{family_image, family_of, translate_family};
ghost use Rattle.translation_meaning.specs.Translation as meant;
ghost use Rattle.translation_meaning.specs.Unmapped.{unmapped_family, unmapped_kind};
ghost use Rattle.term_trees.specs.Readings.{read_arguments, read_class, read_constant, read_family, read_kind, read_map, read_object, read_value};
ghost use Rattle.term_trees.specs.declared.fam.Fam.TheVariants as families;
ghost use Rattle.lf_translate.specs.Answers.{Answers};

use crate::TranslateFault;
use crate::images::image;
use crate::objects::translate_spine;
use hereditary_subst::subst_fam;
use lf_terms::{Class, Fam, HeadMap, Kind, Memory, Obj, QName, Spine, Value, erase};
use std::alloc::Global;

/// The family with each constant replaced by its image: a family value takes arguments for its binders, the outermost
/// first, and has the others on its spine. Unmapped as `translate_obj` says it. It recurses as deep as the family is
/// nested, its arguments included, with a loop over the arguments of a head.
pub fn translate_fam(alloc: Global, map: &HeadMap, t: &Fam) -> Result<Fam, TranslateFault>
    ensures { Answers read_family result (unmapped_family (read_map map.now) (read_family t.now)) (translate_family (read_map map.now) (read_family t.now)) }
{
    match t {
        Fam::Pi(domain, body) => {
            let domain = Box::new(alloc, translate_fam(alloc, map, domain)?)?;
            let body = translate_fam(alloc, map, body)?;
            Ok(Fam::Pi(domain, Box::new(alloc, body)?))
        }
        Fam::At { head, spine } => {
            let image = image(alloc, map, head)?;
            let spine = translate_spine(alloc, map, spine)?;
            Ok(family_in_place(alloc, head, &image.class, &image.value, spine)?)
        }
    }
}

/// What stands in place of a family constant of this classifier with this value, with the arguments: in place of one
/// that is translated, its image, and in place of a defined one, its value. A value of another level leaves the
/// constant, or has no domains: no typed map and no coherent theory has one.
pub fn family_in_place(
    alloc: Global,
    constant: &QName,
    class: &Class,
    value: &Value,
    spine: Spine,
) -> Result<Fam, Memory>
    ensures { IfOk result (λ a. (p : AtomicFamily) → read_family a ≡ family_of (head_takes_all (family_image (read_constant constant.now) (read_class class.now) (read_value value.now)) (read_arguments spine)) p) }
{
    match value {
        Value::Same(other) => constant_at(alloc, other, spine),
        Value::Term(_) => constant_at(alloc, constant, spine),
        Value::Fam { binders, body } => match class {
            Class::Kind(kind) => Ok(filled(alloc, *binders, body, kind, spine)?),
            Class::Fam(_) => {
                let no_domains = Kind::Ty;
                Ok(filled(alloc, *binders, body, &no_domains, spine)?)
            }
        },
    }
}

/// A constant with arguments.
fn constant_at(alloc: Global, constant: &QName, spine: Spine) -> Result<Fam, Memory>
    ensures { IfOk result (λ a. a ≡ families.At constant.now spine) }
{
    Ok(Fam::At {
        head: constant.copy(alloc)?,
        spine,
    })
}

/// The body under so many binders, of a family value of that kind, with the arguments.
///
/// A binder takes its argument at the erasure of the kind's domain. Arguments that were substituted before leave that
/// erasure as it is, so the kind is only gone through.
fn filled(alloc: Global, binders: u32, body: &Fam, kind: &Kind, spine: Spine) -> Result<Fam, Memory>
    ensures { IfOk result (λ a. (p : AtomicFamily) → read_family a ≡ family_of (head_takes_all (FamilyHead binders (read_family body.now) (read_kind kind.now)) (read_arguments spine)) p) }
{
    let mut family = body.copy(alloc)?;
    let mut left = binders;
    let mut domains = kind;
    for argument in spine.as_slice() {
        if left == 0 {
            family = with_copied(alloc, family, argument)?;
        } else {
            match domains {
                Kind::Pi(domain, further) => {
                    left -= 1;
                    family = with_substituted(alloc, family, left, argument, domain)?;
                    domains = further;
                }
                // No typed map has fewer domains than binders.
                Kind::Ty => {}
            }
        }
    }
    Ok(family)
}

/// The family with an argument in place of a variable, at the erasure of the argument's family.
fn with_substituted(
    alloc: Global,
    family: Fam,
    at: u32,
    argument: &Obj,
    domain: &Fam,
) -> Result<Fam, Memory>
    ensures { IfOk result (λ a. read_family a ≡ substitute_family (read_object argument.now) (erasure.erase (read_family domain.now)) at (read_family family)) }
{
    let made = substituted(alloc, &family, at, argument, domain);
    drop(family);
    made
}

/// A copy of the family with an argument in place of a variable.
fn substituted(
    alloc: Global,
    family: &Fam,
    at: u32,
    argument: &Obj,
    domain: &Fam,
) -> Result<Fam, Memory>
    ensures { IfOk result (λ a. read_family a ≡ substitute_family (read_object argument.now) (erasure.erase (read_family domain.now)) at (read_family family.now)) }
{
    let simple = erase(alloc, domain)?;
    let made = subst_fam(alloc, argument, &simple, at, family);
    drop(simple);
    made
}

/// The family with a copy of an argument on its spine.
fn with_copied(alloc: Global, family: Fam, argument: &Obj) -> Result<Fam, Memory>
    ensures { IfOk result (λ a. read_family a ≡ family_takes (read_family family) (read_object argument.now)) }
{
    let Ok(argument) = argument.copy(alloc) else {
        drop(family);
        return Err(Memory);
    };
    with_argument(family, argument)
}

/// The family with an argument on its spine. A Π takes none, and stays.
fn with_argument(family: Fam, argument: Obj) -> Result<Fam, Memory>
    ensures { IfOk result (λ a. read_family a ≡ family_takes (read_family family) (read_object argument)) }
{
    match family {
        Fam::At { head, spine } => constant_with(head, spine, argument),
        Fam::Pi(domain, body) => {
            drop(argument);
            Ok(Fam::Pi(domain, body))
        }
    }
}

/// A constant with its arguments and one more.
fn constant_with(head: QName, spine: Spine, argument: Obj) -> Result<Fam, Memory>
    ensures { IfOk result (λ a. read_family a ≡ family_takes (read_family (families.At head spine)) (read_object argument)) }
{
    let mut spine = spine;
    spine.add(argument)?;
    Ok(Fam::At { head, spine })
}

/// The kind with its domains translated, as `translate_fam` does it.
pub fn translate_kind(alloc: Global, map: &HeadMap, t: &Kind) -> Result<Kind, TranslateFault>
    ensures { Answers read_kind result (unmapped_kind (read_map map.now) (read_kind t.now)) (meant.translate_kind (read_map map.now) (read_kind t.now)) }
{
    match t {
        Kind::Ty => Ok(Kind::Ty),
        Kind::Pi(domain, body) => {
            let domain = Box::new(alloc, translate_fam(alloc, map, domain)?)?;
            let body = translate_kind(alloc, map, body)?;
            Ok(Kind::Pi(domain, Box::new(alloc, body)?))
        }
    }
}

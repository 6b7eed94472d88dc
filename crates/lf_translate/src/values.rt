//! Translation of classifiers and values.
ghost use Rattle.std.specs.Prelude.{◌≡◌};
ghost use Rattle.lf_meaning.specs.Terms.{At, AtFamily, FamilyCon, apply_all, family_apply_all};
ghost use Rattle.translation_meaning.specs.Translation as meant;
ghost use Rattle.translation_meaning.specs.Unmapped.{unmapped_class, unmapped_value};
ghost use Rattle.term_trees.specs.Readings.{read_arguments, read_class, read_constant, read_family, read_head, read_map, read_object, read_value};
ghost use Rattle.lf_translate.specs.Answers.{Answers};

use crate::TranslateFault;
use crate::families::{translate_fam, translate_kind};
use crate::images::image;
use crate::objects::translate_obj;
use lf_terms::{Class, Fam, Head, HeadMap, Obj, QName, Spine, Value};
use std::alloc::Global;

/// The classifier, translated as its family or kind is.
pub fn translate_class(alloc: Global, map: &HeadMap, t: &Class) -> Result<Class, TranslateFault>
    ensures { Answers read_class result (unmapped_class (read_map map.now) (read_class t.now)) (meant.translate_class (read_map map.now) (read_class t.now)) }
{
    match t {
        Class::Kind(kind) => Ok(Class::Kind(translate_kind(alloc, map, kind)?)),
        Class::Fam(family) => Ok(Class::Fam(translate_fam(alloc, map, family)?)),
    }
}

/// The value, translated. The same constant becomes the value of its image, and a term or a family that comes out as a
/// bare constant becomes the same as that constant.
pub fn translate_value(alloc: Global, map: &HeadMap, t: &Value) -> Result<Value, TranslateFault>
    ensures { Answers read_value result (unmapped_value (read_map map.now) (read_value t.now)) (meant.translate_value (read_map map.now) (read_value t.now)) }
{
    match t {
        Value::Same(constant) => {
            let image = image(alloc, map, constant)?;
            Ok(image.value.copy(alloc)?)
        }
        Value::Term(object) => Ok(object_value(translate_obj(alloc, map, object)?)),
        Value::Fam { binders, body } => {
            Ok(family_value(*binders, translate_fam(alloc, map, body)?))
        }
    }
}

/// The value of an object. A bare constant is the same as that constant.
pub fn object_value(object: Obj) -> Value
    ensures { read_value result ≡ meant.object_value (read_object object) }
{
    match object {
        Obj::At { head, spine } => headed_value(head, spine),
        Obj::Lam(body) => Value::Term(Obj::Lam(body)),
    }
}

fn headed_value(head: Head, spine: Spine) -> Value
    ensures { read_value result ≡ meant.object_value (At (apply_all (read_head head) (read_arguments spine))) }
{
    if spine.len() != 0 {
        return Value::Term(Obj::At { head, spine });
    }
    match head {
        Head::Con(constant) => Value::Same(constant),
        Head::Var(index) => Value::Term(Obj::At {
            head: Head::Var(index),
            spine,
        }),
    }
}

/// The value of a family with so many binders. A bare constant under none is the same as that constant.
pub fn family_value(binders: u32, body: Fam) -> Value
    ensures { read_value result ≡ meant.family_value binders (read_family body) }
{
    if binders != 0 {
        return Value::Fam { binders, body };
    }
    match body {
        Fam::At { head, spine } => atomic_value(head, spine),
        Fam::Pi(domain, codomain) => Value::Fam {
            binders,
            body: Fam::Pi(domain, codomain),
        },
    }
}

fn atomic_value(head: QName, spine: Spine) -> Value
    ensures { read_value result ≡ meant.family_value 0 (AtFamily (family_apply_all (FamilyCon (read_constant head)) (read_arguments spine))) }
{
    if spine.len() != 0 {
        return Value::Fam {
            binders: 0,
            body: Fam::At { head, spine },
        };
    }
    Value::Same(head)
}

//! Images of constants, and heads that are put in place of them.
ghost use Rattle.std.specs.Prelude.{◌≡◌, IfErr, IfOk, Some};
ghost use Rattle.lf_meaning.specs.HeadMaps.{image_of};
ghost use Rattle.lf_meaning.specs.Replacement.{object_of, takes_all};
ghost use Rattle.translation_meaning.specs.Translation.{object_image};
ghost use Rattle.translation_meaning.specs.Unmapped.{without_image};
ghost use Rattle.term_trees.specs.Readings.{read_arguments, read_class, read_constant, read_image, read_map, read_object, read_value};
ghost use Rattle.lf_translate.specs.Answers.{Names};

use crate::TranslateFault;
use hereditary_subst::reduce;
use lf_terms::{Class, Head, HeadMap, Image, Memory, Obj, QName, Spine, Value, erase};
use std::alloc::Global;

/// The image of a constant.
pub(crate) fn image<'a>(
    alloc: Global,
    map: &'a HeadMap,
    constant: &QName,
) -> Result<&'a Image, TranslateFault>
    ensures found { IfOk result (λ image. image_of (read_map map.now) (read_constant constant.now) ≡ Some (read_image image.now)) }
    ensures missing { IfErr result (λ fault. Names fault (without_image (read_constant constant.now) (image_of (read_map map.now) (read_constant constant.now)))) }
{
    match map.get(constant) {
        Some(image) => Ok(image),
        None => Err(TranslateFault::Unmapped(constant.copy(alloc)?)),
    }
}

/// What stands in place of an object constant of this classifier with this value, with the arguments: in place of one
/// that is translated, its image, and in place of a defined one, its value. The same constant keeps the arguments on its
/// spine; a term takes them at the erasure of its classifier. A value of another level leaves the constant: no typed
/// map and no coherent theory has one.
pub fn object_in_place(
    alloc: Global,
    constant: &QName,
    class: &Class,
    value: &Value,
    spine: Spine,
) -> Result<Obj, Memory>
    ensures { IfOk result (λ m. read_object m ≡ object_of (takes_all (object_image (read_constant constant.now) (read_class class.now) (read_value value.now)) (read_arguments spine))) }
{
    match value {
        Value::Same(other) => Ok(Obj::At {
            head: Head::Con(other.copy(alloc)?),
            spine,
        }),
        Value::Term(object) => match class {
            Class::Fam(family) => {
                let simple = erase(alloc, family)?;
                Ok(reduce(alloc, object, &simple, spine.as_slice())?)
            }
            Class::Kind(_) => Ok(Obj::At {
                head: Head::Con(constant.copy(alloc)?),
                spine,
            }),
        },
        Value::Fam { .. } => Ok(Obj::At {
            head: Head::Con(constant.copy(alloc)?),
            spine,
        }),
    }
}

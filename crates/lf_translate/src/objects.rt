//! Translation of objects. Arguments in which nothing is changed are handed on.
ghost use Rattle.std.specs.Prelude.{◌≡◌, length, map as each};
ghost use Rattle.lf_meaning.specs.Equality.{same_value};
ghost use Rattle.lf_meaning.specs.Signatures.{SameAs};
ghost use Rattle.translation_meaning.specs.Translation.{translate_object};
ghost use Rattle.translation_meaning.specs.Unmapped.{unmapped_object};
ghost use Rattle.term_trees.specs.Readings.{arguments_of, read_arguments, read_constant, read_map, read_object, read_value};
ghost use Rattle.term_trees.specs.Changes.{changed, gathered};
ghost use Rattle.lf_translate.specs.Answers.{Answers};
ghost use Rattle.lf_translate.specs.Spines.{unmapped_arguments};

use crate::TranslateFault;
use crate::images::{image, object_in_place};
use lf_terms::{Head, HeadMap, Obj, QName, Spine, Value, spine_of_all, with_head, with_next};
use std::alloc::Global;

/// The object with each constant replaced by its image: a variable stays, and an image that is no constant takes its
/// arguments hereditarily. Unmapped exactly where a constant of the object has no image, with the first such constant.
///
/// It recurses as deep as the object is nested, with a loop over the arguments of a head.
pub fn translate_obj(alloc: Global, map: &HeadMap, t: &Obj) -> Result<Obj, TranslateFault>
    ensures { Answers read_object result (unmapped_object (read_map map.now) (read_object t.now)) (translate_object (read_map map.now) (read_object t.now)) }
{
    match translated_obj(alloc, map, t)? {
        Some(new) => Ok(new),
        None => Ok(t.copy(alloc)?),
    }
}

/// The same. None where nothing changes.
#[cycle(objects)]
fn translated_obj(alloc: Global, map: &HeadMap, t: &Obj) -> Result<Option<Obj>, TranslateFault>
    ensures { Answers (λ new. read_object (changed t.now new)) result (unmapped_object (read_map map.now) (read_object t.now)) (translate_object (read_map map.now) (read_object t.now)) }
{
    match t {
        Obj::Lam(body) => match translated_obj(alloc, map, body)? {
            Some(new) => Ok(Some(Obj::Lam(Box::new(alloc, new)?))),
            None => Ok(None),
        },
        Obj::At { head, spine } => match head {
            Head::Var(_) => {
                let so_far = translated_arguments(alloc, map, spine)?;
                Ok(with_head(alloc, head, spine, so_far)?)
            }
            Head::Con(constant) => {
                let image = image(alloc, map, constant)?;
                let so_far = translated_arguments(alloc, map, spine)?;
                if is_same(&image.value, constant) {
                    return Ok(with_head(alloc, head, spine, so_far)?);
                }
                let all = spine_of_all(alloc, spine, so_far)?;
                let new = object_in_place(alloc, constant, &image.class, &image.value, all)?;
                Ok(Some(new))
            }
        },
    }
}

/// What is gathered of the translated arguments, from left to right.
#[cycle(objects)]
fn translated_arguments(
    alloc: Global,
    map: &HeadMap,
    spine: &Spine,
) -> Result<Option<Vec<Obj>>, TranslateFault>
    ensures { Answers (gathered (arguments_of spine.now) (length (arguments_of spine.now))) result (unmapped_arguments (read_map map.now) (read_arguments spine.now)) (each (translate_object (read_map map.now)) (read_arguments spine.now)) }
{
    let items = spine.as_slice();
    let mut so_far = None;
    for (i, item) in items.iter().enumerate() {
        let new = translated_obj(alloc, map, item)?;
        so_far = with_next(alloc, items, i, item, so_far, new)?;
    }
    Ok(so_far)
}

/// Whether a value is the same as that constant.
fn is_same(value: &Value, constant: &QName) -> bool
    ensures { result ≡ same_value (read_value value.now) (SameAs (read_constant constant.now)) }
{
    match value {
        Value::Same(other) => *other == *constant,
        _ => false,
    }
}

/// The translated arguments, on a spine; their own one where nothing of them changes.
pub(crate) fn translate_spine(
    alloc: Global,
    map: &HeadMap,
    spine: &Spine,
) -> Result<Spine, TranslateFault>
    ensures { Answers read_arguments result (unmapped_arguments (read_map map.now) (read_arguments spine.now)) (each (translate_object (read_map map.now)) (read_arguments spine.now)) }
{
    let so_far = translated_arguments(alloc, map, spine)?;
    Ok(spine_of_all(alloc, spine, so_far)?)
}

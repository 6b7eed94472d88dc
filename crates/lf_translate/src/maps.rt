//! Composed maps, and where two maps differ.
ghost use Rattle.std.specs.Prelude.{◌≡◌, ◌∷◌, ◌++◌, [], None};
ghost use Rattle.translation_meaning.specs.Differ as differing;
ghost use Rattle.translation_meaning.specs.Translation as meant;
ghost use Rattle.translation_meaning.specs.Unmapped.{unmapped_map};
ghost use Rattle.term_trees.specs.Readings.{read_constant, read_declaration, read_image, read_map, read_signature};
ghost use Rattle.lf_terms.specs.Tables.{image_of};
ghost use Rattle.lf_translate.specs.Answers.{Answers};
ghost use Rattle.lf_translate.specs.Images.{unmapped_image};

use crate::TranslateFault;
use crate::values::{translate_class, translate_value};
use lf_terms::{FlatDecl, FlatSig, HeadMap, Image, QName, same_value};
use std::alloc::Global;

/// The names of the first map, in order, each with its image translated along the second. Unmapped as `translate_obj`
/// says it, of all images from the first to the last.
pub fn compose(alloc: Global, first: &HeadMap, second: &HeadMap) -> Result<HeadMap, TranslateFault>
    ensures { Answers read_map result (unmapped_map (read_map second.now) (read_map first.now)) (meant.compose (read_map first.now) (read_map second.now)) }
{
    let mut composed = HeadMap::new(alloc);
    for i in 0..first.len() {
        if let Some((name, image)) = first.at(i) {
            add_translated(alloc, &mut composed, second, name, image)?;
        }
    }
    Ok(composed)
}

/// Adds a constant with its image translated along a map.
fn add_translated(
    alloc: Global,
    composed: &mut HeadMap,
    map: &HeadMap,
    name: &QName,
    image: &Image,
) -> Result<(), TranslateFault>
    requires { image_of composed.old name.now ≡ None }
    ensures { Answers (λ _. read_map composed.new) result (unmapped_image (read_map map.now) (read_image image.now)) (read_map composed.old ++ record { name = read_constant name.now; image = meant.translate_image (read_map map.now) (read_image image.now) } ∷ []) }
{
    let image = translate_image(alloc, map, image)?;
    let Ok(name) = name.copy(alloc) else {
        drop(image);
        return Err(TranslateFault::Memory);
    };
    composed.push_new(name, image)?;
    Ok(())
}

fn translate_image(alloc: Global, map: &HeadMap, image: &Image) -> Result<Image, TranslateFault>
    ensures { Answers read_image result (unmapped_image (read_map map.now) (read_image image.now)) (meant.translate_image (read_map map.now) (read_image image.now)) }
{
    let class = translate_class(alloc, map, &image.class)?;
    let value = translate_value(alloc, map, &image.value)?;
    Ok(Image { class, value })
}

/// The index of the first declaration whose values in the two maps differ or which one of them lacks, counted from 0.
/// None exactly where there is none. It takes no memory.
pub fn differ(first: &HeadMap, second: &HeadMap, names: &FlatSig) -> Option<usize>
    ensures { result ≡ differing.differ (read_map first.now) (read_map second.now) (read_signature names.now) }
{
    for i in 0..names.len() {
        if let Some(decl) = names.at(i) {
            if !agree_on(first, second, decl) {
                return Some(i);
            }
        }
    }
    None
}

fn agree_on(first: &HeadMap, second: &HeadMap, decl: &FlatDecl) -> bool
    ensures { result ≡ differing.agree_on (read_map first.now) (read_map second.now) (read_declaration decl.now) }
{
    match (first.get(&decl.name), second.get(&decl.name)) {
        (Some(a), Some(b)) => same_value(&a.value, &b.value),
        _ => false,
    }
}

//! The images of the own part of a theory which the domain of a link includes.
ghost use Rattle.std.specs.Prelude.{◌≡◌, ◌∷◌, ◌++◌, [], IfOk, None, OnOk};
ghost use Rattle.std.specs.Option.{option_map};
ghost use Rattle.lf_meaning.specs.HeadMaps.{image_of};
ghost use Rattle.translation_meaning.specs.Translation as translation;
ghost use Rattle.translation_meaning.specs.Unmapped.{unmapped_class};
ghost use Rattle.link_meaning.specs.Coverings as meant;
ghost use Rattle.link_meaning.specs.CoveringMaps.{cover_all};
ghost use Rattle.link_meaning.specs.Passes.{mapping_to};
ghost use Rattle.mapping_laws.specs.NextImages.{StandsBefore};
ghost use Rattle.term_trees.specs.Readings.{read_class, read_constant, read_declaration, read_map, read_signature, read_value};
ghost use Rattle.link_setting.specs.Answers.{Links};
ghost use Rattle.covering_pass.specs.CoverTables.{assigned_of, setting_of, AreCoverings, IsChosen};

use crate::chosen::{Chosen, value_at};
use crate::covering_refusals::not_covered;
use crate::link_coverings::Coverings;
use lf_terms::{Class, FlatDecl, FlatSig, HeadMap, Image, Memory, QName, Value};
use lf_translate::{TranslateFault, translate_class};
use link_setting::LinkFault;
use std::alloc::Global;

/// Adds the images of the own part of a theory, which come next.
pub(crate) fn add_own(
    alloc: Global,
    coverings: &Coverings<'_>,
    so_far: &mut HeadMap,
    chosen: Chosen<'_>,
    own: &FlatSig,
) -> Result<(), LinkFault>
    requires tables { AreCoverings coverings.now }
    requires chosen { IsChosen (setting_of coverings.now.covers) (assigned_of coverings.now.covers) chosen }
    requires before { StandsBefore (read_map so_far.old) (read_signature own.now) }
    ensures { Links (λ _. read_map so_far.new) result (cover_all (setting_of coverings.now.covers) (assigned_of coverings.now.covers) (read_map so_far.old) (read_signature own.now)) }
{
    for i in 0..own.len() {
        if let Some(decl) = own.at(i) {
            let value = covering_value(alloc, coverings, chosen, decl)?;
            add_image(alloc, so_far, decl, value)?;
        }
    }
    Ok(())
}

/// The value that the coverings of its theory give to a constant. In coherent faces the constants of an own part have the name of
/// their theory, so that its covering is at hand.
fn covering_value(
    alloc: Global,
    coverings: &Coverings<'_>,
    chosen: Chosen<'_>,
    decl: &FlatDecl,
) -> Result<Value, LinkFault>
    requires tables { AreCoverings coverings.now }
    requires chosen { IsChosen (setting_of coverings.now.covers) (assigned_of coverings.now.covers) chosen }
    ensures { Links read_value result (meant.covering_value (setting_of coverings.now.covers) (assigned_of coverings.now.covers) (read_declaration decl.now)) }
{
    match covered_value(alloc, coverings, chosen, decl)? {
        Some(value) => Ok(value),
        None => Err(not_covered(alloc, &coverings.covers.setting, &decl.name.theory)),
    }
}

/// This value, if there is one.
fn covered_value(
    alloc: Global,
    coverings: &Coverings<'_>,
    chosen: Chosen<'_>,
    decl: &FlatDecl,
) -> Result<Option<Value>, Memory>
    requires tables { AreCoverings coverings.now }
    requires chosen { IsChosen (setting_of coverings.now.covers) (assigned_of coverings.now.covers) chosen }
    ensures { IfOk result (λ value. option_map read_value value ≡ meant.covered_value (setting_of coverings.now.covers) (assigned_of coverings.now.covers) (read_declaration decl.now)) }
{
    if *chosen.theory == decl.name.theory {
        value_at(alloc, chosen, &decl.name)
    } else {
        value_at(alloc, coverings.chosen(&decl.name.theory), &decl.name)
    }
}

/// Adds the image of a constant, which comes next: its class, translated along the map so far, and this value.
fn add_image(
    alloc: Global,
    so_far: &mut HeadMap,
    decl: &FlatDecl,
    value: Value,
) -> Result<(), Memory>
    requires class { unmapped_class (read_map so_far.old) (read_class decl.now.class) ≡ None }
    requires fresh { image_of (read_map so_far.old) (read_constant decl.now.name) ≡ None }
    ensures { OnOk result (read_map so_far.new ≡ read_map so_far.old ++ mapping_to (read_map so_far.old) (read_declaration decl.now) (read_value value) ∷ []) }
{
    let Ok(class) = translated_class(alloc, so_far, &decl.class) else {
        drop(value);
        return Err(Memory);
    };
    push_image(alloc, so_far, &decl.name, Image { class, value })
}

/// Adds an image under a copy of the name of its constant, which has none yet.
fn push_image(alloc: Global, so_far: &mut HeadMap, name: &QName, image: Image) -> Result<(), Memory>
    requires { image_of (read_map so_far.old) (read_constant name.now) ≡ None }
    ensures { OnOk result (so_far.new ≡ so_far.old ++ (name.now, image) ∷ []) }
{
    let Ok(name) = name.copy(alloc) else {
        drop(image);
        return Err(Memory);
    };
    so_far.push_new(name, image)
}

/// A class, translated along the map so far, which has images for its constants.
fn translated_class(alloc: Global, so_far: &HeadMap, class: &Class) -> Result<Class, Memory>
    requires { unmapped_class (read_map so_far.now) (read_class class.now) ≡ None }
    ensures { IfOk result (λ translated. read_class translated ≡ translation.translate_class (read_map so_far.now) (read_class class.now)) }
{
    match translate_class(alloc, so_far, class) {
        Ok(class) => Ok(class),
        Err(TranslateFault::Memory) => Err(Memory),
        Err(TranslateFault::Unmapped(_)) => unreachable!(),
    }
}

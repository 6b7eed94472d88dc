//! The third pass: the images of the domain's own constants.
ghost use Rattle.library_meaning.specs.Faces.{own_part};
ghost use Rattle.mapping_laws.specs.NextImages.{IsNext, StandsBefore};
ghost use Rattle.link_meaning.specs.LinkMaps.{IsSettled};
ghost use Rattle.link_meaning.specs.Passes as passes;
ghost use Rattle.term_trees.specs.Readings.{read_declaration, read_image, read_map, read_signature};
ghost use Rattle.link_setting.specs.Readings.{read_all_assigned, read_setting};
ghost use Rattle.link_setting.specs.Answers.{Links};
ghost use Rattle.link_passes.specs.Steps.{AreOwn, image_over, with_own_image};
ghost use Rattle.link_passes.specs.Targets.{AreNumbered};

use crate::reached::{reached_by, targets_of};
use crate::targets::Targets;
use crate::translated::translated_class;
use crate::values::own_value;
use lf_terms::{FlatDecl, FlatSig, HeadMap, Image};
use link_setting::{Assigned, LinkFault, Setting};
use std::alloc::Global;

/// Adds the images of the domain's own constants, over those of what it includes.
pub(crate) fn add_own_images(
    alloc: Global,
    setting: &Setting<'_>,
    assigned: &[Assigned<'_>],
    along: &mut HeadMap,
) -> Result<(), LinkFault>
    requires settled { IsSettled (read_setting setting.now) }
    requires before { StandsBefore (read_map along.old) (own_part (read_setting setting.now).environment (read_setting setting.now).domain) }
    ensures { Links (λ _. read_map along.new) result (passes.map_all (read_setting setting.now) (read_all_assigned assigned.now) (read_map along.old) (own_part (read_setting setting.now).environment (read_setting setting.now).domain)) }
{
    match setting.scope.faces.theory(setting.domain) {
        Some(face) => {
            along.reserve(face.own.len())?;
            let targets = targets_of(alloc, assigned)?;
            let added = add_images(alloc, setting, &targets, assigned, along, &face.own);
            drop(targets);
            added
        }
        None => Ok(()),
    }
}

/// Adds the images of own constants, in order.
fn add_images(
    alloc: Global,
    setting: &Setting<'_>,
    targets: &Targets<'_>,
    assigned: &[Assigned<'_>],
    along: &mut HeadMap,
    own: &FlatSig,
) -> Result<(), LinkFault>
    requires table { AreNumbered targets.now (read_all_assigned assigned.now) }
    requires own { AreOwn (read_setting setting.now) (read_signature own.now) }
    requires before { StandsBefore (read_map along.old) (read_signature own.now) }
    ensures { Links (λ _. read_map along.new) result (passes.map_all (read_setting setting.now) (read_all_assigned assigned.now) (read_map along.old) (read_signature own.now)) }
{
    for index in 0..own.len() {
        if let Some(decl) = own.at(index) {
            add_image(alloc, setting, targets, assigned, along, decl)?;
        }
    }
    Ok(())
}

/// Adds the image of an own constant, which is made over those of the constants before it.
fn add_image(
    alloc: Global,
    setting: &Setting<'_>,
    targets: &Targets<'_>,
    assigned: &[Assigned<'_>],
    along: &mut HeadMap,
    decl: &FlatDecl,
) -> Result<(), LinkFault>
    requires table { AreNumbered targets.now (read_all_assigned assigned.now) }
    requires next { IsNext (read_map along.old) (read_declaration decl.now) }
    ensures { Links (λ _. read_map along.new) result (with_own_image (read_setting setting.now) (read_all_assigned assigned.now) (read_map along.old) (read_declaration decl.now)) }
{
    let image = image_over(alloc, setting, targets, assigned, along, decl)?;
    let Ok(name) = decl.name.copy(alloc) else {
        drop(image);
        return Err(LinkFault::Memory);
    };
    Ok(along.push_new(name, image)?)
}

/// The image of an own constant over a map.
fn image_over(
    alloc: Global,
    setting: &Setting<'_>,
    targets: &Targets<'_>,
    assigned: &[Assigned<'_>],
    along: &HeadMap,
    decl: &FlatDecl,
) -> Result<Image, LinkFault>
    requires table { AreNumbered targets.now (read_all_assigned assigned.now) }
    requires next { IsNext (read_map along.now) (read_declaration decl.now) }
    ensures { Links read_image result (image_over (read_setting setting.now) (read_all_assigned assigned.now) (read_map along.now) (read_declaration decl.now)) }
{
    let class = translated_class(alloc, along, &decl.class)?;
    let reached = reached_by(targets, assigned, &decl.name.path);
    match own_value(alloc, setting, along, reached, &class, decl) {
        Ok(value) => Ok(Image { class, value }),
        Err(fault) => {
            drop(class);
            Err(fault)
        }
    }
}

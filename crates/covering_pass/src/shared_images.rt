//! The images of what the domain of a link includes, over coherent faces: a theory that the identity covers shares the images which
//! its own part has of it.
ghost use Rattle.std.specs.Prelude.{◌≡◌, ◌++◌, [], true, if◌then◌else◌, IfOk, Ok};
ghost use Rattle.library_meaning.specs.Faces as faces_meant;
ghost use Rattle.library_meaning.specs.Words.{identity_map};
ghost use Rattle.link_meaning.specs.Assignments.{included_theories};
ghost use Rattle.link_meaning.specs.Coverings.{is_identity_covering};
ghost use Rattle.link_meaning.specs.CoveringMaps.{cover_all, included_part};
ghost use Rattle.link_meaning.specs.LinkMaps.{IsSettled};
ghost use Rattle.mapping_laws.specs.NextImages.{StandsBefore};
ghost use Rattle.term_trees.specs.Readings.{read_map, read_signature};
ghost use Rattle.link_setting.specs.Answers.{Links};
ghost use Rattle.covering_pass.specs.CoverTables.{assigned_of, setting_of, AreCoverings, IsChosen};

use crate::chosen::Chosen;
use crate::images::add_own;
use crate::link_coverings::Coverings;
use lf_terms::{FlatSig, HeadMap, Memory, Name};
use link_setting::LinkFault;
use std::alloc::Global;

/// The images of what the domain includes, in order.
pub(crate) fn shared_images(alloc: Global, coverings: &Coverings<'_>) -> Result<HeadMap, LinkFault>
    requires tables { AreCoverings coverings.now }
    requires settled { IsSettled (setting_of coverings.now.covers) }
    ensures { Links read_map result (cover_all (setting_of coverings.now.covers) (assigned_of coverings.now.covers) [] (included_part (setting_of coverings.now.covers))) }
{
    let mut so_far = HeadMap::new(alloc);
    let setting = &coverings.covers.setting;
    if let Some(face) = setting.scope.faces.theory(setting.domain) {
        add_all_parts(alloc, coverings, &mut so_far, face.includes.as_slice())?;
    }
    Ok(so_far)
}

/// Adds the images of the own parts of what the domain includes, in order, to a map of nothing.
fn add_all_parts<'a>(
    alloc: Global,
    coverings: &'a Coverings<'_>,
    so_far: &mut HeadMap,
    theories: &'a [Name],
) -> Result<(), LinkFault>
    requires tables { AreCoverings coverings.now }
    requires settled { IsSettled (setting_of coverings.now.covers) }
    requires theories { theories.now ≡ included_theories (setting_of coverings.now.covers) }
    requires nothing { so_far.old ≡ [] }
    ensures { Links (λ _. read_map so_far.new) result (cover_all (setting_of coverings.now.covers) (assigned_of coverings.now.covers) [] (faces_meant.own_parts (setting_of coverings.now.covers).environment theories.now)) }
{
    for theory in theories {
        let chosen = coverings.chosen(theory);
        if let Some(own) = chosen.own {
            add_part(alloc, coverings, so_far, chosen, own)?;
        }
    }
    Ok(())
}

/// Adds the images of the own part of a theory, which come next; those that the part has of the identity, where that covers the
/// theory.
fn add_part(
    alloc: Global,
    coverings: &Coverings<'_>,
    so_far: &mut HeadMap,
    chosen: Chosen<'_>,
    own: &FlatSig,
) -> Result<(), LinkFault>
    requires tables { AreCoverings coverings.now }
    requires chosen { IsChosen (setting_of coverings.now.covers) (assigned_of coverings.now.covers) chosen }
    requires before { StandsBefore (read_map so_far.old) (read_signature own.now) }
    requires identity { is_identity_covering (setting_of coverings.now.covers) (assigned_of coverings.now.covers) chosen.theory.now ≡ true → cover_all (setting_of coverings.now.covers) (assigned_of coverings.now.covers) (read_map so_far.old) (read_signature own.now) ≡ Ok (read_map so_far.old ++ identity_map (read_signature own.now)) }
    ensures { Links (λ _. read_map so_far.new) result (cover_all (setting_of coverings.now.covers) (assigned_of coverings.now.covers) (read_map so_far.old) (read_signature own.now)) }
{
    if coverings.is_identity(chosen.theory) {
        let shared = share_identity(alloc, so_far, own)?;
        if shared {
            return Ok(());
        }
    }
    add_own(alloc, coverings, so_far, chosen, own)
}

/// Shares the images that the own part of a theory has of the identity, and says so, where that can be done; else the map stays.
fn share_identity(alloc: Global, so_far: &mut HeadMap, own: &FlatSig) -> Result<bool, Memory>
    ensures { IfOk result (λ shared. read_map so_far.new ≡ (if shared then read_map so_far.old ++ identity_map (read_signature own.now) else read_map so_far.old)) }
{
    match own.identity() {
        Some(part) => so_far.share_part(alloc, part),
        None => Ok(false),
    }
}

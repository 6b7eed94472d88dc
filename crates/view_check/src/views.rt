//! A view, checked.
ghost use Rattle.std.specs.Prelude.{◌≡◌, IfOk, IsSome};
ghost use Rattle.lf_meaning.specs.HeadMaps.{HeadMap as MeantMap};
ghost use Rattle.text_meaning.specs.Trees.{first_name};
ghost use Rattle.library_meaning.specs.Faces.{theory_of};
ghost use Rattle.link_meaning.specs.LinkMaps.{IsMapOfLink};
ghost use Rattle.verdict_meaning.specs.Modules as modules;
ghost use Rattle.link_meaning.specs.Passes as passes;
ghost use Rattle.face_typing.specs.Below.TypedFaces.{IsTypedEnvironment};
ghost use Rattle.face_typing.specs.CarryingMaps.{ViewCarriesTyping};
ghost use Rattle.term_trees.specs.Readings.{read_map};
ghost use Rattle.mmt_syntax.specs.Readings.{read_assigns, read_written};
ghost use Rattle.mmt_interface.specs.CoherentFaces.{AreCoherent};
ghost use Rattle.mmt_interface.specs.Readings.{environment_of, read_view};
ghost use Rattle.morphism.specs.Below.Answers.{Links, RefusesNothing};
ghost use Rattle.view_check.specs.Answers.{face_with, setting_of};

use lf_terms::{HeadMap, Memory};
use mmt_interface::{Faces, ViewFace};
use mmt_syntax::{ViewDecl, first_name};
use morphism::{LinkFault, Scope, Setting, link_map};
use std::alloc::Global;

/// The face of a view whose ends are accepted theories, over coherent faces. Ok exactly where a map meets the equations of
/// the link, and with that one; else `Broken` is the first test that is false. Where all that the faces tell is well typed,
/// the map carries typing from the domain to the codomain.
pub fn check_view(alloc: Global, faces: &Faces, view: &ViewDecl) -> Result<ViewFace, LinkFault>
    requires coherent { AreCoherent faces.now }
    requires domain { IsSome (theory_of (environment_of faces.now) (first_name view.now.domain.path)) }
    requires codomain { IsSome (theory_of (environment_of faces.now) (first_name view.now.codomain.path)) }
    ensures answer { Links read_view result (modules.checked_view (environment_of faces.now) (read_written view.now.name) (read_written view.now.domain) (read_written view.now.codomain) (read_assigns view.now.assigns)) }
    ensures map { IfOk result (λ face. (along : MeantMap) × IsMapOfLink (setting_of (environment_of faces.now) view.now) (read_assigns view.now.assigns) along × (read_view face ≡ face_with view.now along)) }
    ensures only { (along : MeantMap) → IsMapOfLink (setting_of (environment_of faces.now) view.now) (read_assigns view.now.assigns) along → RefusesNothing result }
    ensures typed { IfOk result (λ face. IsTypedEnvironment (environment_of faces.now) → ViewCarriesTyping (environment_of faces.now) (read_view face)) }
{
    let map = map_of(alloc, faces, view)?;
    Ok(view_with(alloc, view, map)?)
}

/// The face of a view with this map.
fn view_with(alloc: Global, view: &ViewDecl, map: HeadMap) -> Result<ViewFace, Memory>
    ensures { IfOk result (λ face. read_view face ≡ face_with view.now (read_map map)) }
{
    let Ok(name) = first_name(&view.name).copy(alloc) else {
        drop(map);
        return Err(Memory);
    };
    let Ok(domain) = first_name(&view.domain).copy(alloc) else {
        drop(map);
        drop(name);
        return Err(Memory);
    };
    let Ok(codomain) = first_name(&view.codomain).copy(alloc) else {
        drop(map);
        drop(name);
        drop(domain);
        return Err(Memory);
    };
    Ok(ViewFace {
        name,
        domain,
        codomain,
        map,
    })
}

/// The map of the view's link, over its whole codomain.
fn map_of<'a>(alloc: Global, faces: &'a Faces, view: &'a ViewDecl) -> Result<HeadMap, LinkFault>
    requires coherent { AreCoherent faces.now }
    requires domain { IsSome (theory_of (environment_of faces.now) (first_name view.now.domain.path)) }
    requires codomain { IsSome (theory_of (environment_of faces.now) (first_name view.now.codomain.path)) }
    ensures { Links read_map result (passes.link_map (setting_of (environment_of faces.now) view.now) (read_assigns view.now.assigns)) }
{
    let codomain = first_name(&view.codomain);
    let target = faces.theory(codomain).unwrap();
    let setting = Setting {
        here: None,
        domain: first_name(&view.domain),
        codomain,
        scope: Scope {
            own: &target.own,
            includes: &target.includes,
            faces,
        },
        structure: None,
        at: &view.name,
    };
    link_map(alloc, &setting, &view.assigns)
}

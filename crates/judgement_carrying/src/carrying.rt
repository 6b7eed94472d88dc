//! Judgements carried along views (Rabe and Kohlhase 2013, section 4: morphisms carry judgements).
ghost use Rattle.std.specs.Prelude.{◌≡◌, ◌≤◌, [], Some, None, length, IfOk};
ghost use Rattle.name_meaning.specs.Limits.{line_limit};
ghost use Rattle.edit_log_meaning.specs.Log.{Library};
ghost use Rattle.text_meaning.specs.Reading.{Answer};
ghost use Rattle.library_meaning.specs.Coherence.{IsCoherentMap};
ghost use Rattle.library_meaning.specs.Faces as known;
ghost use Rattle.library_meaning.specs.Faces.{Environment, flat_of, flat_signature};
ghost use Rattle.translation_meaning.specs.Translation.{translate_family, translate_object};
ghost use Rattle.translation_meaning.specs.Unmapped.{unmapped_family, unmapped_object};
ghost use Rattle.elaborate_meaning.specs.Expansion.{expand_family, expand_object};
ghost use Rattle.verdict_meaning.specs.Modules.{scope_in};
ghost use Rattle.judged_meaning.specs.Carrying as meaning;
ghost use Rattle.judged_meaning.specs.Carrying.{carried_over, carried_text, fault_at, IllBy};
ghost use Rattle.carried_typing.specs.CarriedTyping.{IsCarried};
ghost use Rattle.constant_laws.specs.ExpansionHolds.{ScopeHolds};
ghost use Rattle.term_trees.specs.Readings.{read_family, read_map, read_object};
ghost use Rattle.mmt_syntax.specs.Readings as syntax;
ghost use Rattle.mmt_syntax.specs.Readings.{read_expr};
ghost use Rattle.mmt_interface.specs.Carriages.{IsCarriage, IsCarryFault};
ghost use Rattle.mmt_interface.specs.CoherentFaces.{AreCoherent};
ghost use Rattle.mmt_interface.specs.ReadRules.{read_rule};
ghost use Rattle.mmt_interface.specs.Readings.{environment_of, read_theory, read_view};
ghost use Rattle.names.specs.Readings.{read_scope};
ghost use Rattle.twelf_expressions.specs.Going.{Fails};
ghost use Rattle.judgement_carrying.specs.OneLibrary.{HoldReachOf};
ghost use Rattle.judgement_carrying.specs.Expanded.{Expanded, ill_of};

use elaborate::{ElabFault, elab_fam, elab_obj};
use lf_terms::{Fam, HeadMap, Memory, Name, Obj, Span};
use lf_translate::{TranslateFault, translate_fam, translate_obj};
use mmt_interface::{Carried, CarryFault, Faces, Rule, TheoryFace, ViewFace};
use mmt_syntax::{Expr, Judgement};
use names::{Scope, Vars};
use std::alloc::Global;
use twelf_reader::{ReadFault, read_judgement};

/// The judgement that a text of at most 1,024 bytes spells, `object : family` over the whole domain of a view, carried along
/// the view: both are translated along its map. The faces are coherent. `NoView` exactly where no accepted view has the name,
/// whatever the text is. Along a view `Ill` exactly where the text does not read, its family breaks a rule, or else its object
/// does: with the first rule that is broken, and its place in the text. Where the faces hold verdicts of one library alone, and
/// with the view every present name of its reach, what is carried is a typing judgement of the codomain.
pub fn carry(alloc: Global, faces: &Faces, view: &Name, text: &[u8]) -> Result<Carried, CarryFault>
    requires coherent { AreCoherent faces.now }
    requires short { length text.now ≤ line_limit }
    ensures answer { IsCarriage result (meaning.carry (environment_of faces.now) view.now text.now) }
    ensures typed { (library : Library) → HoldReachOf library faces.now view.now → IfOk result (λ carried. IsCarried (environment_of faces.now) view.now text.now (read_object carried.obj) (read_family carried.fam)) }
{
    let Some(along) = faces.view(view) else {
        return Err(CarryFault::NoView);
    };
    // The domain of an accepted view is accepted.
    let Some(source) = faces.theory(&along.domain) else {
        unreachable!();
    };
    match read_judgement(alloc, text) {
        Ok(judgement) => carried(alloc, faces, along, source, &judgement),
        Err(fault) => Err(unread(fault)),
    }
}

/// Why a text that does not read is not carried along any view.
fn unread(fault: ReadFault) -> CarryFault
    ensures { (environment : Environment) (view : known.ViewFace) (answer : Answer) → Fails fault answer → IsCarryFault result (carried_text environment view answer) }
{
    match fault {
        ReadFault::Syntax { at } => ill_at(at, Rule::Syntax),
        ReadFault::TooDeep { at } => ill_at(at, Rule::TooDeep),
        ReadFault::Unsupported { at } => ill_at(at, Rule::Unsupported),
        ReadFault::Memory => CarryFault::Memory,
    }
}

/// A rule that is broken at a place, over no byte.
fn ill_at(at: u32, rule: Rule) -> CarryFault
    ensures { IsCarryFault result (IllBy (fault_at at (read_rule rule))) }
{
    CarryFault::Ill {
        span: Span { from: at, to: at },
        rule,
    }
}

/// A judgement over the domain of a view, carried along the view: its family is tested first.
fn carried(
    alloc: Global,
    faces: &Faces,
    view: &ViewFace,
    source: &TheoryFace,
    judgement: &Judgement,
) -> Result<Carried, CarryFault>
    requires scope { ScopeHolds (scope_in (environment_of faces.now) (read_theory source.now)) }
    requires map { IsCoherentMap (flat_signature (environment_of faces.now) (read_theory source.now)) (flat_of (environment_of faces.now) view.now.codomain) (read_map view.now.map) }
    ensures { IsCarriage result (carried_over (environment_of faces.now) (read_view view.now) (syntax.read_judgement judgement.now) (Some (read_theory source.now))) }
{
    let scope = Scope {
        own: &source.own,
        includes: &source.includes,
        faces,
    };
    let family = family_over(alloc, &scope, &judgement.fam)?;
    let object = object_over(alloc, &scope, &judgement.obj, &family)?;
    Ok(translated(alloc, &view.map, &object, &family)?)
}

/// The family that an expression stands for, with no variables around it.
fn family_over(alloc: Global, scope: &Scope<'_>, expr: &Expr) -> Result<Fam, CarryFault>
    ensures { Expanded read_family result (expand_family (read_scope scope.now) [] (read_expr expr.now)) }
{
    let no_vars = Vars::new(alloc);
    match elab_fam(alloc, scope, &no_vars, expr) {
        Ok(family) => Ok(family),
        Err(fault) => Err(ill(fault)),
    }
}

/// The object that an expression stands for at a family, with no variables around it.
fn object_over(
    alloc: Global,
    scope: &Scope<'_>,
    expr: &Expr,
    family: &Fam,
) -> Result<Obj, CarryFault>
    ensures { Expanded read_object result (expand_object (read_scope scope.now) [] (read_expr expr.now) (read_family family.now)) }
{
    let no_vars = Vars::new(alloc);
    match elab_obj(alloc, scope, &no_vars, expr, family) {
        Ok(object) => Ok(object),
        Err(fault) => Err(ill(fault)),
    }
}

/// A rule that an expression breaks.
fn ill(fault: ElabFault) -> CarryFault
    ensures { result ≡ ill_of fault }
{
    match fault {
        ElabFault::Broken { span, rule } => CarryFault::Ill { span, rule },
        ElabFault::Memory => CarryFault::Memory,
    }
}

/// An object and its family, translated along a map that has images for their constants.
fn translated(alloc: Global, map: &HeadMap, object: &Obj, family: &Fam) -> Result<Carried, Memory>
    requires object { unmapped_object (read_map map.now) (read_object object.now) ≡ None }
    requires family { unmapped_family (read_map map.now) (read_family family.now) ≡ None }
    ensures object { IfOk result (λ carried. read_object carried.obj ≡ translate_object (read_map map.now) (read_object object.now)) }
    ensures family { IfOk result (λ carried. read_family carried.fam ≡ translate_family (read_map map.now) (read_family family.now)) }
{
    Ok(Carried {
        obj: translated_object(alloc, map, object)?,
        fam: translated_family(alloc, map, family)?,
    })
}

fn translated_object(alloc: Global, map: &HeadMap, object: &Obj) -> Result<Obj, Memory>
    requires { unmapped_object (read_map map.now) (read_object object.now) ≡ None }
    ensures { IfOk result (λ image. read_object image ≡ translate_object (read_map map.now) (read_object object.now)) }
{
    match translate_obj(alloc, map, object) {
        Ok(image) => Ok(image),
        Err(TranslateFault::Memory) => Err(Memory),
        Err(TranslateFault::Unmapped(_)) => unreachable!(),
    }
}

fn translated_family(alloc: Global, map: &HeadMap, family: &Fam) -> Result<Fam, Memory>
    requires { unmapped_family (read_map map.now) (read_family family.now) ≡ None }
    ensures { IfOk result (λ image. read_family image ≡ translate_family (read_map map.now) (read_family family.now)) }
{
    match translate_fam(alloc, map, family) {
        Ok(image) => Ok(image),
        Err(TranslateFault::Memory) => Err(Memory),
        Err(TranslateFault::Unmapped(_)) => unreachable!(),
    }
}

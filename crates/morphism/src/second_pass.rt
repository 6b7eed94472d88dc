//! The second pass over a link, alone.
ghost use Rattle.std.specs.Prelude.{◌≡◌, [], List, IfErr, IfOk, IsSome};
ghost use Rattle.std.specs.Result.{IsOk};
ghost use Rattle.std.specs.Option.{option_copied, option_map};
ghost use Rattle.lf_meaning.specs.HeadMaps.{HeadMap as MeantMap};
ghost use Rattle.library_meaning.specs.Faces.{theory_of};
ghost use Rattle.link_meaning.specs.Assignments.{Assigned as MeantAssigned};
ghost use Rattle.link_meaning.specs.Assignments as links;
ghost use Rattle.link_meaning.specs.AssignmentsRead.{AssignsRead};
ghost use Rattle.link_meaning.specs.Coverings.{covered_tests};
ghost use Rattle.link_meaning.specs.CoveringMaps as passes;
ghost use Rattle.link_meaning.specs.CoveringMaps.{MeetsCoverings};
ghost use Rattle.link_meaning.specs.LinkMaps.{IsSettled};
ghost use Rattle.link_laws.specs.LinkTargets.{HereHolds};
ghost use Rattle.term_trees.specs.Readings.{read_map};
ghost use Rattle.mmt_syntax.specs.Readings as trees;
ghost use Rattle.mmt_syntax.specs.Readings.{read_written};
ghost use Rattle.mmt_interface.specs.CoherentFaces.{AreCoherent, MayBeHere};
ghost use Rattle.mmt_interface.specs.Readings.{environment_of, read_theory};
ghost use Rattle.link_passes.specs.Below.Readings.{read_setting};
ghost use Rattle.link_passes.specs.Below.Answers.{Links, IsFirstRefusal, RefusesNothing};
ghost use Rattle.morphism.specs.CoverCalls.{first_passes, link_between, BreaksCoveringRule, IsCodomain, AreSeen};

use assignment_pass::read_assigns;
use covering_pass::covering_map;
use lf_terms::{FlatSig, HeadMap, Name, Names};
use link_passes::{LinkFault, Scope, Setting};
use mmt_interface::{Faces, TheoryFace};
use mmt_syntax::{Assigns, Written};
use std::alloc::Global;

/// The images that the coverings of a link give to the constants that its domain includes, theory by theory in the order of the
/// domain's inclusion closure (this profile). The faces are coherent, and so is `here`, the theory that is being built, if the
/// link leads into one; the domain is an accepted theory; the codomain is `here` or, where that is None, an accepted theory; and
/// `seen` is the codomain's inclusion closure, for `here` the one so far. The assignments pass the first pass.
///
/// Ok exactly where a map gives what the coverings give, and with that one. Else `Broken` is the first refusal:
/// `IncludeNotCovered` at the link's own name `at`, with the theory that has no covering, or `MorphismsDisagree` at the first
/// word of the first covering assignment of a theory that gives other values than the covering with which it is compared.
pub fn cover(
    alloc: Global,
    faces: &Faces,
    here: Option<&TheoryFace>,
    domain: &Name,
    codomain: &Name,
    seen: &Names,
    assigns: &Assigns,
    at: &Written,
) -> Result<HeadMap, LinkFault>
    requires coherent { AreCoherent faces.now }
    requires here { MayBeHere faces.now (option_copied here) }
    requires domain { IsSome (theory_of (environment_of faces.now) domain.now) }
    requires codomain { IsCodomain (environment_of faces.now) (option_map (λ face. read_theory face.now) here) codomain.now }
    requires seen { AreSeen (environment_of faces.now) (option_map (λ face. read_theory face.now) here) codomain.now seen.now }
    requires assigns { IsOk (links.read_assigns (link_between (environment_of faces.now) (option_map (λ face. read_theory face.now) here) domain.now codomain.now seen.now (read_written at.now)) [] (trees.read_assigns assigns.now)) }
    ensures answer { (assigned : List MeantAssigned) → AssignsRead (link_between (environment_of faces.now) (option_map (λ face. read_theory face.now) here.entry) domain.now codomain.now seen.now (read_written at.now)) [] (trees.read_assigns assigns.now) assigned → Links read_map result (passes.covering_map (link_between (environment_of faces.now) (option_map (λ face. read_theory face.now) here.entry) domain.now codomain.now seen.now (read_written at.now)) assigned) }
    ensures map { (assigned : List MeantAssigned) → AssignsRead (link_between (environment_of faces.now) (option_map (λ face. read_theory face.now) here.entry) domain.now codomain.now seen.now (read_written at.now)) [] (trees.read_assigns assigns.now) assigned → IfOk result (λ map. MeetsCoverings (link_between (environment_of faces.now) (option_map (λ face. read_theory face.now) here.entry) domain.now codomain.now seen.now (read_written at.now)) assigned (read_map map)) }
    ensures refused { (assigned : List MeantAssigned) → AssignsRead (link_between (environment_of faces.now) (option_map (λ face. read_theory face.now) here.entry) domain.now codomain.now seen.now (read_written at.now)) [] (trees.read_assigns assigns.now) assigned → IfErr result (λ fault. IsFirstRefusal fault (covered_tests (link_between (environment_of faces.now) (option_map (λ face. read_theory face.now) here.entry) domain.now codomain.now seen.now (read_written at.now)) assigned)) }
    ensures only { (assigned : List MeantAssigned) (along : MeantMap) → AssignsRead (link_between (environment_of faces.now) (option_map (λ face. read_theory face.now) here.entry) domain.now codomain.now seen.now (read_written at.now)) [] (trees.read_assigns assigns.now) assigned → MeetsCoverings (link_between (environment_of faces.now) (option_map (λ face. read_theory face.now) here.entry) domain.now codomain.now seen.now (read_written at.now)) assigned along → RefusesNothing result }
    ensures rules { IfErr result (λ fault. BreaksCoveringRule fault) }
{
    let no_constants = FlatSig::new(alloc);
    let setting = setting_between(faces, here, &no_constants, domain, codomain, seen, at);
    let map = cover_link(alloc, &setting, assigns);
    drop(no_constants);
    map
}

/// The link between these ends, in which no value stands: a setting without own constants.
fn setting_between<'a>(
    faces: &'a Faces,
    here: Option<&'a TheoryFace>,
    no_constants: &'a FlatSig,
    domain: &'a Name,
    codomain: &'a Name,
    seen: &'a Names,
    at: &'a Written,
) -> Setting<'a>
    requires { no_constants.now ≡ [] }
    ensures { read_setting result ≡ link_between (environment_of faces.now) (option_map (λ face. read_theory face.now) here.entry) domain.now codomain.now seen.now (read_written at.now) }
{
    Setting {
        here,
        domain,
        codomain,
        scope: Scope {
            own: no_constants,
            includes: seen,
            faces,
        },
        structure: None,
        at,
    }
}

/// The second pass over what the first gives.
fn cover_link<'a>(
    alloc: Global,
    setting: &Setting<'a>,
    assigns: &'a Assigns,
) -> Result<HeadMap, LinkFault>
    requires settled { IsSettled (read_setting setting.now) }
    requires here { HereHolds (read_setting setting.now).environment (read_setting setting.now).here }
    ensures { Links read_map result (first_passes (read_setting setting.now) (trees.read_assigns assigns.now)) }
{
    let assigned = read_assigns(alloc, setting, assigns)?;
    let map = covering_map(alloc, setting, assigned.as_slice());
    drop(assigned);
    map
}

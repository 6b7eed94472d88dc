//! The first pass: what the assignments of a link give, in the order of the text.
ghost use Rattle.std.specs.Prelude.{◌≡◌, [], IfOk, Ok};
ghost use Rattle.std.specs.Option.{option_copied};
ghost use Rattle.text_meaning.specs.Trees.{ConstAssign, IncludeAssign, StructAssign};
ghost use Rattle.library_meaning.specs.Coherence.{IsCoherent};
ghost use Rattle.library_meaning.specs.Words as words;
ghost use Rattle.elaborate_meaning.specs.Rules as rules;
ghost use Rattle.link_meaning.specs.Assignments as passes;
ghost use Rattle.link_meaning.specs.Assignments.{Sharing};
ghost use Rattle.link_meaning.specs.Refusals as refusals;
ghost use Rattle.link_meaning.specs.Refusals.{Outcome, or_refused};
ghost use Rattle.link_laws.specs.LinkTargets.{HereHolds};
ghost use Rattle.mmt_syntax.specs.Readings as trees;
ghost use Rattle.link_setting.specs.Below.Readings.{read_link};
ghost use Rattle.link_setting.specs.Below.Answers.{IsFirstFault};
ghost use Rattle.link_setting.specs.Readings.{read_all_assigned, read_assigned, read_setting};
ghost use Rattle.link_setting.specs.Answers.{IsFirstRefusal, Links};
ghost use Rattle.link_setting.specs.Labels.{label_of};
ghost use Rattle.assignment_pass.specs.Steps.{AreTabled, earlier_targets};

use crate::ends::{covering_ends, sharing_ends};
use crate::targets::{Targets, has_constant, structure_at};
use lf_terms::{Path, Span};
use link_setting::{Assigned, Link, LinkFault, MorphFault, Setting, broken, demand, meaning};
use mmt_interface::Rule;
use mmt_syntax::{Assign, Assigns, Expr, Morph, Written};
use std::alloc::Global;

/// What the assignments of a link give, or the first refusal. The faces are coherent; the theory that is being built is not among
/// them, and its structures have coherent maps.
pub fn read_assigns<'a>(
    alloc: Global,
    setting: &Setting<'a>,
    assigns: &'a Assigns,
) -> Result<Vec<Assigned<'a>>, LinkFault>
    requires coherent { IsCoherent (read_setting setting.now).environment }
    requires here { HereHolds (read_setting setting.now).environment (read_setting setting.now).here }
    ensures { Links (λ given. read_all_assigned given.items) result (passes.read_assigns (read_setting setting.now) [] (trees.read_assigns assigns.now)) }
{
    let mut given = Vec::new(alloc);
    let mut targets = Targets::new(alloc);
    let read = read_all(alloc, setting, &mut targets, &mut given, assigns.as_slice());
    drop(targets);
    match read {
        Ok(()) => Ok(given),
        Err(fault) => {
            drop(given);
            Err(fault)
        }
    }
}

/// Adds to nothing what assignments give, in order, and their targets.
fn read_all<'a>(
    alloc: Global,
    setting: &Setting<'a>,
    targets: &mut Targets<'a>,
    given: &mut Vec<Assigned<'a>>,
    assigns: &'a [Assign],
) -> Result<(), LinkFault>
    requires coherent { IsCoherent (read_setting setting.now).environment }
    requires here { HereHolds (read_setting setting.now).environment (read_setting setting.now).here }
    requires targets { earlier_targets targets.old ≡ [] }
    requires tabled { AreTabled targets.old }
    requires nothing { given.old.items ≡ [] }
    ensures { Links (λ _. read_all_assigned given.new.items) result (passes.read_assigns (read_setting setting.now) [] (trees.read_assigns assigns.now)) }
{
    for assign in assigns {
        given.push(read_assign(alloc, setting, targets, assign)?)?;
        targets.add(assign)?;
    }
    Ok(())
}

/// What one assignment gives, behind these targets.
fn read_assign<'a>(
    alloc: Global,
    setting: &Setting<'a>,
    earlier: &Targets<'a>,
    assign: &'a Assign,
) -> Result<Assigned<'a>, LinkFault>
    requires coherent { IsCoherent (read_setting setting.now).environment }
    requires here { HereHolds (read_setting setting.now).environment (read_setting setting.now).here }
    requires tabled { AreTabled earlier.now }
    ensures { Links read_assigned result (passes.read_assign (read_setting setting.now) (earlier_targets earlier.now) (trees.read_assign assign.now)) }
{
    match assign {
        Assign::Const { target, value } => giving(alloc, setting, earlier, target, value),
        Assign::Include(morph) => covering(alloc, setting, morph),
        Assign::Struct { target, morph } => sharing(alloc, setting, earlier, target, morph),
    }
}

/// An own constant of the domain is given a value.
fn giving<'a>(
    alloc: Global,
    setting: &Setting<'a>,
    earlier: &Targets<'a>,
    target: &'a Written,
    value: &'a Expr,
) -> Result<Assigned<'a>, LinkFault>
    requires { AreTabled earlier.now }
    ensures { Links read_assigned result (passes.read_assign (read_setting setting.now) (earlier_targets earlier.now) (ConstAssign (trees.read_written target.now) (trees.read_expr value.now))) }
{
    let path = &target.path;
    let known = has_constant(setting, path);
    demand(
        alloc,
        setting,
        known,
        target.span,
        Rule::UnknownTarget,
        Some(path),
    )?;
    demand_free(alloc, setting, earlier, target)?;
    Ok(Assigned::Giving {
        target: path,
        value,
    })
}

/// Theories that the domain includes are covered by a link.
fn covering<'a>(
    alloc: Global,
    setting: &Setting<'a>,
    morph: &'a Morph,
) -> Result<Assigned<'a>, LinkFault>
    requires coherent { IsCoherent (read_setting setting.now).environment }
    requires here { HereHolds (read_setting setting.now).environment (read_setting setting.now).here }
    ensures { Links read_assigned result (passes.read_assign (read_setting setting.now) [] (IncludeAssign (trees.read_morph morph.now))) }
{
    let by = words_link(alloc, setting, morph, None)?;
    let first = first_place(morph);
    if covering_ends(setting, &by) {
        return Ok(Assigned::Covering { first, by });
    }
    drop(by);
    Err(broken(alloc, setting, first, Rule::MorphismEnds, None))
}

/// A structure of the domain is shared by a link.
fn sharing<'a>(
    alloc: Global,
    setting: &Setting<'a>,
    earlier: &Targets<'a>,
    target: &'a Written,
    morph: &'a Morph,
) -> Result<Assigned<'a>, LinkFault>
    requires coherent { IsCoherent (read_setting setting.now).environment }
    requires here { HereHolds (read_setting setting.now).environment (read_setting setting.now).here }
    requires tabled { AreTabled earlier.now }
    ensures { Links read_assigned result (passes.read_assign (read_setting setting.now) (earlier_targets earlier.now) (StructAssign (trees.read_written target.now) (trees.read_morph morph.now))) }
{
    let structure = target_link(alloc, setting, target)?;
    match sharing_link(alloc, setting, earlier, &structure, target, morph) {
        Ok(by) => Ok(Assigned::Sharing {
            target: &target.path,
            structure,
            first: first_place(morph),
            by,
        }),
        Err(fault) => {
            drop(structure);
            Err(fault)
        }
    }
}

/// The link by which an assignment shares this structure, which it names.
fn sharing_link(
    alloc: Global,
    setting: &Setting<'_>,
    earlier: &Targets<'_>,
    structure: &Link,
    target: &Written,
    morph: &Morph,
) -> Result<Link, LinkFault>
    requires coherent { IsCoherent (read_setting setting.now).environment }
    requires here { HereHolds (read_setting setting.now).environment (read_setting setting.now).here }
    requires tabled { AreTabled earlier.now }
    requires known { or_refused (passes.structure_at (read_setting setting.now) target.now.path) (trees.read_span target.now.span) rules.Rule.UnknownTarget (passes.label_along (read_setting setting.now) target.now.path) ≡ Ok (read_link structure.now) }
    ensures { Links (λ by. Sharing target.now.path (read_link structure.now) (passes.word_place (trees.read_morph morph.now) 0) (read_link by)) result (passes.read_assign (read_setting setting.now) (earlier_targets earlier.now) (StructAssign (trees.read_written target.now) (trees.read_morph morph.now))) }
{
    demand_free(alloc, setting, earlier, target)?;
    let by = words_link(alloc, setting, morph, Some(&target.path))?;
    if sharing_ends(setting, structure, &by) {
        return Ok(by);
    }
    drop(by);
    let first = first_place(morph);
    Err(broken(
        alloc,
        setting,
        first,
        Rule::MorphismEnds,
        Some(&target.path),
    ))
}

/// The own link of the structure that an assignment names.
fn target_link(alloc: Global, setting: &Setting<'_>, target: &Written) -> Result<Link, LinkFault>
    requires { IsCoherent (read_setting setting.now).environment }
    ensures { Links read_link result (or_refused (passes.structure_at (read_setting setting.now) target.now.path) (trees.read_span target.now.span) rules.Rule.UnknownTarget (passes.label_along (read_setting setting.now) target.now.path)) }
{
    match structure_at(alloc, setting, &target.path)? {
        Some(link) => Ok(link),
        None => {
            let rule = Rule::UnknownTarget;
            Err(broken(alloc, setting, target.span, rule, Some(&target.path)))
        }
    }
}

/// Refuses a target that overlaps an earlier one.
fn demand_free(
    alloc: Global,
    setting: &Setting<'_>,
    earlier: &Targets<'_>,
    target: &Written,
) -> Result<(), LinkFault>
    requires { AreTabled earlier.now }
    ensures { Links (λ _. tt) result (refusals.demand (passes.is_free (earlier_targets earlier.now) target.now.path) (trees.read_span target.now.span) rules.Rule.DoubleAssignment (passes.label_along (read_setting setting.now) target.now.path)) }
{
    let path = &target.path;
    let free = earlier.are_apart_from(path);
    demand(
        alloc,
        setting,
        free,
        target.span,
        Rule::DoubleAssignment,
        Some(path),
    )
}

/// The link that the words of an assignment mean.
fn words_link(
    alloc: Global,
    setting: &Setting<'_>,
    morph: &Morph,
    target: Option<&Path>,
) -> Result<Link, LinkFault>
    requires coherent { IsCoherent (read_setting setting.now).environment }
    requires here { HereHolds (read_setting setting.now).environment (read_setting setting.now).here }
    ensures { Links read_link result (passes.link_of (read_setting setting.now) (label_of (read_setting setting.now) (option_copied target.entry)) (trees.read_morph morph.now)) }
{
    match meaning(alloc, setting.scope.faces, setting.here, morph) {
        Ok(link) => Ok(link),
        Err(fault) => Err(word_fault(alloc, setting, fault, target)),
    }
}

/// The refusal of a word.
fn word_fault(
    alloc: Global,
    setting: &Setting<'_>,
    fault: MorphFault,
    target: Option<&Path>,
) -> LinkFault
    ensures { (outcome : Outcome words.Link) → IsFirstFault fault (label_of (read_setting setting.now) (option_copied target.entry)) outcome → IsFirstRefusal result outcome }
{
    match fault {
        MorphFault::Module { span, rule } => broken(alloc, setting, span, rule, target),
        MorphFault::UnknownMorphism { span } => {
            broken(alloc, setting, span, Rule::UnknownName, target)
        }
        MorphFault::Ends { span } => broken(alloc, setting, span, Rule::MorphismEnds, target),
        MorphFault::Memory => LinkFault::Memory,
    }
}

/// The place of the first word of a row.
fn first_place(morph: &Morph) -> Span
    ensures { trees.read_span result ≡ passes.word_place (trees.read_morph morph.now) 0 }
{
    match morph.words.as_slice() {
        [first, ..] => first.span,
        [] => Span { from: 0, to: 0 },
    }
}

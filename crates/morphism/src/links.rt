//! The map of a link.
ghost use Rattle.std.specs.Prelude.{◌≡◌};
ghost use Rattle.library_meaning.specs.Coherence.{declared_names, mapped_names};
ghost use Rattle.link_meaning.specs.CoveringMaps.{included_part};
ghost use Rattle.link_meaning.specs.LinkMaps.{IsSettled};
ghost use Rattle.link_meaning.specs.Passes as passes;
ghost use Rattle.link_laws.specs.CoveringLaws as laws;
ghost use Rattle.link_laws.specs.LinkTargets.{HereHolds};
ghost use Rattle.term_trees.specs.Readings.{read_map};
ghost use Rattle.mmt_syntax.specs.Readings.{read_assigns};
ghost use Rattle.link_passes.specs.Below.Readings.{read_all_assigned, read_setting};
ghost use Rattle.link_passes.specs.Below.Answers.{Links};
ghost use Rattle.link_passes.specs.SharedImages.{AreShared};

use assignment_pass::read_assigns;
use covering_pass::covering_map;
use lf_terms::HeadMap;
use link_passes::{Assigned, LinkFault, Setting, own_passes};
use mmt_syntax::Assigns;
use std::alloc::Global;

/// The map of a link with these assignments, or the first refusal. The faces are coherent, and the domain is an accepted
/// theory there; the theory that is being built is not among them, and its structures have coherent maps.
pub fn link_map(
    alloc: Global,
    setting: &Setting<'_>,
    assigns: &Assigns,
) -> Result<HeadMap, LinkFault>
    requires settled { IsSettled (read_setting setting.now) }
    requires here { HereHolds (read_setting setting.now).environment (read_setting setting.now).here }
    ensures { Links read_map result (passes.link_map (read_setting setting.now) (read_assigns assigns.now)) }
{
    let assigned = read_assigns(alloc, setting, assigns)?;
    let map = assigned_map(alloc, setting, assigned.as_slice());
    drop(assigned);
    map
}

/// The map of the link that these assignments give: the images of what the domain includes, and then those of its own
/// constants, which are made over them.
fn assigned_map(
    alloc: Global,
    setting: &Setting<'_>,
    assigned: &[Assigned<'_>],
) -> Result<HeadMap, LinkFault>
    requires settled { IsSettled (read_setting setting.now) }
    requires shared { AreShared (read_setting setting.now) (read_all_assigned assigned.now) }
    ensures { Links read_map result (passes.assigned_map (read_setting setting.now) (read_all_assigned assigned.now)) }
{
    let front = covering_map(alloc, setting, assigned)?;
    later_passes(alloc, setting, assigned, front)
}

/// The third and the fourth pass, over the images of what the domain includes.
fn later_passes(
    alloc: Global,
    setting: &Setting<'_>,
    assigned: &[Assigned<'_>],
    front: HeadMap,
) -> Result<HeadMap, LinkFault>
    requires settled { IsSettled (read_setting setting.now) }
    requires shared { AreShared (read_setting setting.now) (read_all_assigned assigned.now) }
    requires front { mapped_names (read_map front) ≡ declared_names (included_part (read_setting setting.now)) }
    ensures { Links read_map result (laws.later_passes (read_setting setting.now) (read_all_assigned assigned.now) (read_map front)) }
{
    let mut along = front;
    match own_passes(alloc, setting, assigned, &mut along) {
        Ok(()) => Ok(along),
        Err(fault) => {
            drop(along);
            Err(fault)
        }
    }
}

//! The third and the fourth pass, one behind the other.
ghost use Rattle.std.specs.Prelude.{◌≡◌};
ghost use Rattle.library_meaning.specs.Coherence.{declared_names, mapped_names};
ghost use Rattle.link_meaning.specs.CoveringMaps.{included_part};
ghost use Rattle.link_meaning.specs.LinkMaps.{IsSettled};
ghost use Rattle.link_laws.specs.CoveringLaws as laws;
ghost use Rattle.term_trees.specs.Readings.{read_map};
ghost use Rattle.link_setting.specs.Readings.{read_all_assigned, read_setting};
ghost use Rattle.link_setting.specs.Answers.{Links};
ghost use Rattle.link_passes.specs.SharedImages.{AreShared};

use crate::images::add_own_images;
use crate::sharing::shared_tests;
use lf_terms::HeadMap;
use link_setting::{Assigned, LinkFault, Setting};
use std::alloc::Global;

/// The third and the fourth pass, over the images of what the domain includes, to which they add those of its own constants. The
/// faces are coherent, the domain is an accepted theory, and each shared structure is one of the domain.
pub fn own_passes(
    alloc: Global,
    setting: &Setting<'_>,
    assigned: &[Assigned<'_>],
    along: &mut HeadMap,
) -> Result<(), LinkFault>
    requires settled { IsSettled (read_setting setting.now) }
    requires shared { AreShared (read_setting setting.now) (read_all_assigned assigned.now) }
    requires front { mapped_names (read_map along.old) ≡ declared_names (included_part (read_setting setting.now)) }
    ensures { Links (λ _. read_map along.new) result (laws.later_passes (read_setting setting.now) (read_all_assigned assigned.now) (read_map along.old)) }
{
    add_own_images(alloc, setting, assigned, along)?;
    shared_tests(alloc, setting, along, assigned)
}

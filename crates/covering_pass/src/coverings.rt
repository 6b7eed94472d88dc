//! The second pass: how the theories that the domain of a link includes are covered.
ghost use Rattle.link_meaning.specs.CoveringMaps as passes;
ghost use Rattle.link_meaning.specs.LinkMaps.{IsSettled};
ghost use Rattle.term_trees.specs.Readings.{read_map};
ghost use Rattle.link_setting.specs.Readings.{read_all_assigned, read_setting};
ghost use Rattle.link_setting.specs.Answers.{Links};
ghost use Rattle.covering_pass.specs.CoverTables.{assigned_of, setting_of, AreCoverings};

use crate::link_coverings::Coverings;
use crate::shared_images::shared_images;
use lf_terms::HeadMap;
use link_setting::{Assigned, LinkFault, Setting};
use std::alloc::Global;

/// The images of the constants that the domain includes, in the order of its flat signature (this profile); or the first refusal,
/// theory by theory in the order of the domain's inclusion closure: `IncludeNotCovered` at the link's own name, with the theory
/// that has no covering, or `MorphismsDisagree` at the first word of the first covering assignment of a theory that gives other
/// values than the covering with which it is compared, which is the identity where that covers, else the first assignment.
///
/// The faces are coherent, and the domain is an accepted theory: so no constant comes twice, and a class holds only constants that
/// have images already. A theory that the identity covers, and whose own part has the images of the identity, costs no more than a
/// place in the map: the images are shared, as long as each theory before it shares its own too. Else it costs in proportion to its
/// own constants.
pub fn covering_map(
    alloc: Global,
    setting: &Setting<'_>,
    assigned: &[Assigned<'_>],
) -> Result<HeadMap, LinkFault>
    requires { IsSettled (read_setting setting.now) }
    ensures { Links read_map result (passes.covering_map (read_setting setting.now) (read_all_assigned assigned.now)) }
{
    let coverings = Coverings::new(alloc, setting, assigned)?;
    let map = tested_images(alloc, &coverings);
    drop(coverings);
    map
}

/// The images, where the tests of coverings pass.
fn tested_images(alloc: Global, coverings: &Coverings<'_>) -> Result<HeadMap, LinkFault>
    requires tables { AreCoverings coverings.now }
    requires settled { IsSettled (setting_of coverings.now.covers) }
    ensures { Links read_map result (passes.covering_map (setting_of coverings.now.covers) (assigned_of coverings.now.covers)) }
{
    coverings.test_domain(alloc)?;
    shared_images(alloc, coverings)
}

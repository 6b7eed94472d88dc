//! The coverings of the theories that the domain of a link includes.
ghost use Rattle.std.specs.Prelude.{◌≡◌, IfOk};
ghost use Rattle.std.specs.Option.{option_map};
ghost use Rattle.library_meaning.specs.Faces as faces_meant;
ghost use Rattle.link_meaning.specs.Assignments as links;
ghost use Rattle.link_meaning.specs.Refusals.{each};
ghost use Rattle.link_meaning.specs.Coverings as meant;
ghost use Rattle.link_setting.specs.Readings.{read_all_assigned, read_setting};
ghost use Rattle.link_setting.specs.Answers.{Links};
ghost use Rattle.covering_pass.specs.CoverTables.{assigned_of, is_below_identity, read_covering, setting_of, AreCoverings, IsChosen};

use crate::chosen::Chosen;
use crate::cover_tables::Covers;
use crate::covering::Covering;
use crate::covering_refusals::{disagree, not_covered};
use crate::identity::{below_domain, is_below_domain};
use crate::seen::own_part;
use crate::tables::has;
use indexmap::IndexSet;
use lf_terms::{Memory, Name};
use link_setting::{Assigned, LinkFault, Setting};
use std::alloc::Global;

/// The covering assignments of a link; and a table of the theories that are included in one which the domain includes and the
/// identity covers. It is not made where the identity covers all that the domain includes, since it is then not needed.
#[derive(Drop)]
pub(crate) struct Coverings<'a> {
    pub covers: Covers<'a>,
    pub below: Option<IndexSet<Name>>,
}

impl<'a> Coverings<'a> {
    /// The coverings of a link with these assignments.
    pub(crate) fn new(
        alloc: Global,
        setting: &Setting<'a>,
        assigned: &'a [Assigned<'a>],
    ) -> Result<Coverings<'a>, Memory>
        ensures setting { IfOk result (λ coverings. setting_of coverings.covers ≡ read_setting setting.now) }
        ensures assigned { IfOk result (λ coverings. assigned_of coverings.covers ≡ read_all_assigned assigned.now) }
        ensures tables { IfOk result (λ coverings. AreCoverings coverings) }
    {
        let covers = Covers::new(alloc, setting, assigned)?;
        match below_domain(alloc, &covers) {
            Ok(below) => Ok(Coverings { covers, below }),
            Err(fault) => {
                drop(covers);
                Err(fault)
            }
        }
    }

    /// Whether the identity is a covering of a theory.
    pub(crate) fn is_identity(&self, theory: &Name) -> bool
        requires { AreCoverings self.now }
        ensures { result ≡ meant.is_identity_covering (setting_of self.now.covers) (assigned_of self.now.covers) theory.now }
    {
        self.covers.identity_covers(theory) || self.is_below(theory)
    }

    /// Whether a theory is included in one that the domain includes and the identity covers. It takes expected constant time for
    /// what the domain includes and the identity does not cover.
    fn is_below(&self, theory: &Name) -> bool
        requires { AreCoverings self.now }
        ensures { result ≡ is_below_identity (setting_of self.now.covers) (assigned_of self.now.covers) (links.included_theories (setting_of self.now.covers)) theory.now }
    {
        match &self.below {
            Some(table) => has(table, theory),
            None => is_below_domain(&self.covers, theory),
        }
    }

    /// The covering of a theory with which the others are compared: the identity where it is one, else the first assignment.
    pub(crate) fn first(&self, theory: &Name) -> Option<Covering<'a>>
        requires { AreCoverings self.now }
        ensures { option_map (read_covering (faces_meant.own_part (setting_of self.now.covers).environment theory.now)) result ≡ meant.first_covering (setting_of self.now.covers) (assigned_of self.now.covers) theory.now }
    {
        if self.is_identity(theory) {
            return Some(Covering::Identity);
        }
        match self.covers.first_map(theory) {
            Some(map) => Some(Covering::Along(map)),
            None => None,
        }
    }

    /// A theory with that covering.
    pub(crate) fn chosen<'b>(&'b self, theory: &'b Name) -> Chosen<'b>
        requires { AreCoverings self.now }
        ensures theory { result.theory.now ≡ theory.now }
        ensures chosen { IsChosen (setting_of self.now.covers) (assigned_of self.now.covers) result }
    {
        Chosen {
            theory,
            own: own_part(self.covers.setting.scope.faces, theory),
            covering: self.first(theory),
        }
    }

    /// The tests of one theory: it has a covering, and all its coverings agree.
    fn test(&self, alloc: Global, theory: &Name) -> Result<(), LinkFault>
        requires { AreCoverings self.now }
        ensures { Links (λ _. tt) result (meant.covered_test (setting_of self.now.covers) (assigned_of self.now.covers) theory.now) }
    {
        let Some(covering) = self.first(theory) else {
            return Err(not_covered(alloc, &self.covers.setting, theory));
        };
        let own = own_part(self.covers.setting.scope.faces, theory);
        match self.covers.first_disagreeing(theory, own, covering) {
            Some(first) => Err(disagree(alloc, &self.covers.setting, first)),
            None => Ok(()),
        }
    }

    /// The tests of theories, in order.
    fn test_all(&self, alloc: Global, theories: &[Name]) -> Result<(), LinkFault>
        requires { AreCoverings self.now }
        ensures { Links (λ _. tt) result (each (meant.covered_test (setting_of self.now.covers) (assigned_of self.now.covers)) theories.now) }
    {
        for theory in theories {
            self.test(alloc, theory)?;
        }
        Ok(())
    }

    /// The tests of what the domain includes, in order.
    pub(crate) fn test_domain(&self, alloc: Global) -> Result<(), LinkFault>
        requires { AreCoverings self.now }
        ensures { Links (λ _. tt) result (meant.covered_tests (setting_of self.now.covers) (assigned_of self.now.covers)) }
    {
        match self
            .covers
            .setting
            .scope
            .faces
            .theory(self.covers.setting.domain)
        {
            Some(face) => self.test_all(alloc, face.includes.as_slice()),
            None => Ok(()),
        }
    }
}

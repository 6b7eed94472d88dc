//! The covering assignments of a link, and what its codomain sees, in tables.
ghost use Rattle.std.specs.Prelude.{◌≡◌, ◌||◌, IfOk, OnOk, filter_map, find};
ghost use Rattle.std.specs.Option.{option_copied, option_map};
ghost use Rattle.name_meaning.specs.Names.{Name as BytesOfName};
ghost use Rattle.library_meaning.specs.Faces as faces_meant;
ghost use Rattle.library_meaning.specs.Faces.{includes_of, theory_of};
ghost use Rattle.library_meaning.specs.Closure.{sees};
ghost use Rattle.link_meaning.specs.Assignments as links;
ghost use Rattle.link_meaning.specs.Coverings as meant;
ghost use Rattle.link_meaning.specs.Coverings.{cover_by, covers_of};
ghost use Rattle.term_trees.specs.Readings.{read_map};
ghost use Rattle.mmt_syntax.specs.Readings.{read_span};
ghost use Rattle.mmt_interface.specs.Readings.{environment_of};
ghost use Rattle.link_setting.specs.Readings.{read_all_assigned, read_setting};
ghost use Rattle.covering_pass.specs.CoverTables.{assigned_of, covers_in, read_covering, read_own, setting_of, AreCovers};

use crate::covering::{Covering, differs};
use crate::tables::{add, add_all, has};
use indexmap::IndexSet;
use lf_terms::{FlatSig, HeadMap, Memory, Name, Span};
use link_setting::{Assigned, Link, Setting};
use mmt_interface::Faces;
use std::alloc::Global;

/// A covering assignment: the place of its first word, as bytes of the text, half open; its map; and the theories that it
/// covers, which are the domain of its link and what that includes.
#[derive(Drop)]
pub(crate) struct Cover<'a> {
    pub first: Span,
    pub map: &'a HeadMap,
    pub theories: IndexSet<Name>,
}

/// A link with its covering assignments, in order; and its codomain with what that includes so far.
#[derive(Drop)]
pub(crate) struct Covers<'a> {
    pub setting: Setting<'a>,
    pub assigned: &'a [Assigned<'a>],
    pub covers: Vec<Cover<'a>>,
    pub seen: IndexSet<Name>,
}

impl<'a> Cover<'a> {
    fn new(alloc: Global, faces: &Faces, first: Span, by: &'a Link) -> Result<Cover<'a>, Memory>
        ensures first { IfOk result (λ cover. cover.first ≡ first) }
        ensures map { IfOk result (λ cover. cover.map.now ≡ by.now.map) }
        ensures theories { IfOk result (λ cover. (theory : BytesOfName) → sees cover.theories.keys theory ≡ links.is_or_includes (environment_of faces.now) by.now.domain theory) }
    {
        Ok(Cover {
            first,
            map: &by.map,
            theories: with_includes(alloc, faces, &by.domain)?,
        })
    }
}

/// A theory and what it includes.
fn with_includes(alloc: Global, faces: &Faces, theory: &Name) -> Result<IndexSet<Name>, Memory>
    ensures { IfOk result (λ table. (other : BytesOfName) → sees table.keys other ≡ links.is_or_includes (environment_of faces.now) theory.now other) }
{
    let mut table = IndexSet::new(alloc);
    add(alloc, &mut table, theory)?;
    add_includes(alloc, faces, &mut table, theory)?;
    Ok(table)
}

/// Adds what a theory includes.
pub(crate) fn add_includes(
    alloc: Global,
    faces: &Faces,
    table: &mut IndexSet<Name>,
    theory: &Name,
) -> Result<(), Memory>
    ensures { OnOk result ((other : BytesOfName) → sees table.new.keys other ≡ (sees table.old.keys other || sees (includes_of (theory_of (environment_of faces.now) theory.now)) other)) }
{
    match faces.theory(theory) {
        Some(face) => add_all(alloc, table, face.includes.as_slice()),
        None => Ok(()),
    }
}

/// The codomain, and what it includes so far.
fn seen(alloc: Global, setting: &Setting<'_>) -> Result<IndexSet<Name>, Memory>
    ensures { IfOk result (λ table. (theory : BytesOfName) → sees table.keys theory ≡ links.codomain_sees (read_setting setting.now) theory) }
{
    let mut table = IndexSet::new(alloc);
    add(alloc, &mut table, setting.codomain)?;
    add_all(alloc, &mut table, setting.scope.includes.as_slice())?;
    Ok(table)
}

/// The covering assignments, in order.
fn covering_assignments<'a>(
    alloc: Global,
    faces: &Faces,
    assigned: &'a [Assigned<'a>],
) -> Result<Vec<Cover<'a>>, Memory>
    ensures { IfOk result (λ covers. (theory : BytesOfName) → covers_in covers.items theory ≡ filter_map (cover_by (environment_of faces.now) theory) (read_all_assigned assigned.now)) }
{
    let mut covers = Vec::new(alloc);
    for item in assigned {
        if let Assigned::Covering { first, by } = item {
            covers.push(Cover::new(alloc, faces, *first, by)?)?;
        }
    }
    Ok(covers)
}

impl<'a> Covers<'a> {
    /// The tables of a link with these assignments.
    pub(crate) fn new(
        alloc: Global,
        setting: &Setting<'a>,
        assigned: &'a [Assigned<'a>],
    ) -> Result<Covers<'a>, Memory>
        ensures setting { IfOk result (λ covers. setting_of covers ≡ read_setting setting.now) }
        ensures assigned { IfOk result (λ covers. assigned_of covers ≡ read_all_assigned assigned.now) }
        ensures tables { IfOk result (λ covers. AreCovers covers) }
    {
        let covers = covering_assignments(alloc, setting.scope.faces, assigned)?;
        let Ok(seen) = seen(alloc, setting) else {
            drop(covers);
            return Err(Memory);
        };
        Ok(Covers {
            setting: *setting,
            assigned,
            covers,
            seen,
        })
    }

    /// The map of the first assignment that covers a theory.
    pub(crate) fn first_map(&self, theory: &Name) -> Option<&'a HeadMap>
        requires { AreCovers self.now }
        ensures { option_map (λ map. read_map map.now) result ≡ meant.first_map (covers_of (setting_of self.now) (assigned_of self.now) theory.now) }
    {
        for cover in &self.covers {
            if has(&cover.theories, theory) {
                return Some(cover.map);
            }
        }
        None
    }

    /// Whether no assignment covers a theory, and the codomain sees it.
    pub(crate) fn identity_covers(&self, theory: &Name) -> bool
        requires { AreCovers self.now }
        ensures { result ≡ meant.identity_covers (setting_of self.now) (assigned_of self.now) theory.now }
    {
        self.first_map(theory).is_none() && has(&self.seen, theory)
    }

    /// The place of the first assignment that covers a theory with this own part and gives other values to it than this covering
    /// does.
    pub(crate) fn first_disagreeing(
        &self,
        theory: &Name,
        own: Option<&FlatSig>,
        covering: Covering<'_>,
    ) -> Option<Span>
        requires covers { AreCovers self.now }
        requires own { read_own (option_copied own) ≡ faces_meant.own_part (setting_of self.now).environment theory.now }
        ensures { option_map read_span result ≡ option_map (λ cover. cover.first) (find (meant.disagrees (setting_of self.now) theory.now (read_covering (read_own (option_copied own.entry)) covering.entry)) (covers_of (setting_of self.now) (assigned_of self.now) theory.now)) }
    {
        for cover in &self.covers {
            if has(&cover.theories, theory) && differs(covering, own, cover.map) {
                return Some(cover.first);
            }
        }
        None
    }
}

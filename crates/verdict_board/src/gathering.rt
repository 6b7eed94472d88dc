//! What a module that is ready reaches: it is made of what its dependencies reach, which is kept with their verdicts.
ghost use Rattle.std.specs.Prelude.{◌≡◌, ◌⊎◌, ◌∷◌, [], true, false, IfOk, IfSome, MatchOption, List};
ghost use Rattle.name_meaning.specs.Names.{Name, is_among, is_ascending};
ghost use Rattle.edit_log_meaning.specs.Log.{is_present};
ghost use Rattle.module_graph_meaning.specs.Walks.{direct};
ghost use Rattle.module_graph_meaning.specs.Reach.{reach};
ghost use Rattle.list_laws.proofs.Members.{Member};
ghost use Rattle.board_meaning.specs.Events.{library_after};
ghost use Rattle.board_meaning.specs.Standing.{stands};
ghost use Rattle.module_graph.specs.ReachParts.{IsJoin, IsReachAmong, AreParts};
ghost use Rattle.verdict_board.specs.Gathering.{DoRest};
ghost use Rattle.verdict_board.specs.Marks.{bit_of};

use crate::Board;
use crate::marked_names::MarkedNames;
use crate::search::contains;
use lf_terms::{Memory, Name, Names};
use module_graph::Subject;
use std::alloc::Global;

impl<S: Subject> Board<S> {
    /// The name and all names on walks from it, present or not, in byte order, where it is present, and each of its present
    /// dependencies has a standing verdict. Time grows with what is reached, and not with how.
    pub(crate) fn reach_of(&self, alloc: Global, name: &Name) -> Result<MarkedNames, Memory>
        requires present { is_present (library_after self.now) name.now ≡ true }
        requires rests { DoRest S.subject.dependencies self.now (direct S.subject.dependencies (library_after self.now) name.now) }
        ensures { IfOk result (λ names. names ≡ reach S.subject.dependencies (library_after self.now) name.now) }
    {
        let Some(dependencies) = self.graph.row(name) else {
            unreachable!();
        };
        let longest = self.longest(dependencies);
        let parts = self.parts(alloc, dependencies, longest)?;
        let all = joined(alloc, parts)?;
        all.with(alloc, name)
    }

    /// What these names reach, but for those that the longest of them reaches too.
    fn parts(
        &self,
        alloc: Global,
        dependencies: &Names,
        longest: Option<&MarkedNames>,
    ) -> Result<Vec<MarkedNames>, Memory>
        requires rests { DoRest S.subject.dependencies self.now dependencies.now }
        requires longest { IfSome longest (λ names. IsReachAmong S.subject.dependencies (library_after self.now) dependencies.now names.now) }
        ensures { IfOk result (λ parts. AreParts S.subject.dependencies (library_after self.now) dependencies.now dependencies.now parts.items) }
    {
        let mut parts = begun(alloc, longest)?;
        for dependency in dependencies.as_slice() {
            if is_in(longest, dependency) {
                continue;
            }
            parts.push(self.part(alloc, dependency)?)?;
        }
        Ok(parts)
    }

    /// What a name reaches, which is absent or has a standing verdict.
    fn part(&self, alloc: Global, name: &Name) -> Result<MarkedNames, Memory>
        requires { is_present (library_after self.now) name.now ≡ true → stands S.subject.dependencies self.now name.now ≡ true }
        ensures { IfOk result (λ part. part ≡ reach S.subject.dependencies (library_after self.now) name.now) }
    {
        match self.kept_reach(name) {
            Some(names) => names.share(),
            None => MarkedNames::one(alloc, name),
        }
    }

    /// The longest of what these names reach, as far as they have standing verdicts.
    fn longest(&self, names: &Names) -> Option<&MarkedNames>
        ensures { IfSome result (λ longest. IsReachAmong S.subject.dependencies (library_after self.now) names.now longest.now) }
    {
        let mut longest = None;
        for name in names.as_slice() {
            longest = longer(longest, self.kept_reach(name));
        }
        longest
    }

    /// Whether a name reaches another one, the place of whose bit is given, if that is known: it is absent, or has a standing verdict.
    pub(crate) fn reaches(&self, from: &Name, name: &Name, bit: u32) -> Option<bool>
        requires { bit ≡ bit_of name.now }
        ensures { IfSome result (λ found. found ≡ is_among (reach S.subject.dependencies (library_after self.now) from.now) name.now) }
    {
        match self.kept_reach(from) {
            Some(names) => Some(names.contains(name, bit)),
            None => self.reaches_itself(from, name),
        }
    }

    /// The same where it has no standing verdict.
    fn reaches_itself(&self, from: &Name, name: &Name) -> Option<bool>
        ensures { IfSome result (λ found. found ≡ is_among (reach S.subject.dependencies (library_after self.now) from.now) name.now) }
    {
        match self.stages.get(from) {
            Some(_) => None,
            None => Some(name == from),
        }
    }

    /// What a name reaches, if it has a standing verdict.
    fn kept_reach(&self, name: &Name) -> Option<&MarkedNames>
        ensures { MatchOption result (stands S.subject.dependencies self.now name.now ≡ false) (λ names. names.now ≡ reach S.subject.dependencies (library_after self.now) name.now) }
    {
        match self.stages.get(name) {
            Some(stage) => stage.reached(),
            None => None,
        }
    }
}

/// The longer one of two, if there are any.
fn longer<'a>(
    first: Option<&'a MarkedNames>,
    second: Option<&'a MarkedNames>,
) -> Option<&'a MarkedNames>
    ensures { (result ≡ first.entry) ⊎ (result ≡ second.entry) }
{
    match (first, second) {
        (Some(names), Some(others)) => {
            if names.get().len() < others.get().len() {
                second
            } else {
                first
            }
        }
        (Some(_), None) => first,
        (None, _) => second,
    }
}

/// Whether a name is among names, if there are any.
fn is_in(names: Option<&MarkedNames>, name: &Name) -> bool
    requires { IfSome names (λ known. is_ascending known.now ≡ true) }
    ensures { MatchOption names.entry (result ≡ false) (λ known. result ≡ is_among known.now name.now) }
{
    match names {
        Some(known) => contains(known.get(), name),
        None => false,
    }
}

/// These names, if there are any, as the first of several.
fn begun(alloc: Global, names: Option<&MarkedNames>) -> Result<Vec<MarkedNames>, Memory>
    ensures { IfOk result (λ parts. MatchOption names.entry (parts.items ≡ []) (λ known. parts.items ≡ known.now ∷ [])) }
{
    let mut parts = Vec::new(alloc);
    if let Some(known) = names {
        parts.push(known.share()?)?;
    }
    Ok(parts)
}

/// The names of all these lists. Two of them are merged at a time, and what comes of it is merged behind the others, so that a name is
/// copied as often as their number can be halved.
fn joined(alloc: Global, lists: Vec<MarkedNames>) -> Result<MarkedNames, Memory>
    requires { (list : List Name) → Member list lists.items → is_ascending list ≡ true }
    ensures { IfOk result (λ names. IsJoin lists.items names) }
{
    let mut parts = lists;
    let mut next = 0;
    while next + 1 < parts.len() {
        let both = parts[next].merged(alloc, &parts[next + 1])?;
        parts.push(both)?;
        next += 2;
    }
    match parts.get(next) {
        Some(names) => names.share(),
        None => MarkedNames::new(alloc, Names::from_vec(Vec::new(alloc))),
    }
}

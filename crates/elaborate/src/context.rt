//! Where an expression stands: a scope, and the variables of the binders around it.
ghost use Rattle.std.specs.Prelude.{◌≡◌, ◌+◌, IfOk, Ok, reverse, slice_get};
ghost use Rattle.std.specs.Option.{option_copied, option_map};
ghost use Rattle.library_meaning.specs.Resolution as resolution;
ghost use Rattle.elaborate_meaning.specs.Locals.{context_of, family_at, variables_of, with_local};
ghost use Rattle.elaborate_meaning.specs.NameHeads.{name_head, variable_head};
ghost use Rattle.elaborate_meaning.specs.NameHeads as meant;
ghost use Rattle.elaborate_meaning.specs.Values.{resolved_declaration};
ghost use Rattle.term_trees.specs.Readings.{read_declaration, read_family};
ghost use Rattle.mmt_syntax.specs.Readings.{read_span};
ghost use Rattle.names.specs.Readings.{read_locals, read_resolved, read_tabled};
ghost use Rattle.elaborate.specs.Contexts.{is_named_by, levelled, locals_of, read_found, resolved_answer, scope_of, variables_in};
ghost use Rattle.elaborate.specs.HeadStates.{read_level};
ghost use Rattle.elaborate.specs.Answers.{Begins, Expands};

use crate::fault::{ElabFault, broken};
use crate::given::GivenVariables;
use crate::heads::{Classifier, Head, Level, Start};
use crate::lent::Lent;
use lf_terms::{Class, Fam, FlatDecl, Memory, Name, Path, Span, shift_fam};
use mmt_interface::Rule;
use mmt_syntax::Binder;
use names::{Found, ResolveFault, TabledScope, Vars, resolve_tabled};
use std::alloc::Global;

/// Variables that are given, and behind them those of the binders that were passed. A binder takes no memory; a look-up
/// goes over the binders inside of the variable.
#[derive(Clone, Copy)]
pub(crate) enum Variables<'a> {
    Given(GivenVariables<'a>),
    Bound {
        name: Option<&'a Name>,
        family: &'a Fam,
        outer: &'a Variables<'a>,
    },
}

/// A scope and variables.
#[derive(Clone, Copy)]
pub(crate) struct Context<'a> {
    scope: &'a TabledScope<'a>,
    variables: Variables<'a>,
}

impl<'a> Variables<'a> {
    /// What a path names: the variable of a binder that was passed, which hides what stands outside, or what the path
    /// names among the given variables and in the scope.
    fn resolve(
        &self,
        scope: &'a TabledScope<'a>,
        span: Span,
        written: &Path,
    ) -> Result<Found<'a>, ElabFault>
        ensures { Expands read_found result (resolved_answer (read_span span) (resolution.resolve (read_tabled scope.now) (variables_of (variables_in self.now)) written.now)) }
    {
        match self {
            Variables::Given(given) => { found(span, resolve_tabled(scope, given.get(), written)) },
            Variables::Bound { name, outer, .. } => {
                if is_named(*name, written) {
                    return Ok(Found::Var(0));
                }
                match outer.resolve(scope, span, written)? {
                    Found::Var(index) => Ok(Found::Var(one_more(index)?)),
                    Found::Decl(decl) => Ok(Found::Decl(decl)),
                }
            }
        }
    }

    /// The family of a variable, as it stands at its binder. None exactly where the index is past the variables.
    fn family(&self, index: u32) -> Option<&'a Fam>
        ensures { option_map (λ a. read_family a.now) result ≡ slice_get (context_of (variables_in self.now)) index }
    {
        match self {
            Variables::Given(given) => match innermost(given.get().as_slice(), index as usize) {
                Some(variable) => Some(&variable.1),
                None => None,
            },
            Variables::Bound { family, outer, .. } => match index.checked_sub(1) {
                Some(index) => outer.family(index),
                None => Some(*family),
            },
        }
    }
}

/// What was found, or the rule that is broken at a name that stands for nothing.
fn found<'a>(span: Span, found: Result<Found<'a>, ResolveFault>) -> Result<Found<'a>, ElabFault>
    ensures { Expands read_found result (resolved_answer (read_span span) (read_resolved found.entry)) }
{
    match found {
        Ok(found) => Ok(found),
        Err(ResolveFault::Unknown) => Err(broken(span, Rule::UnknownName)),
        Err(ResolveFault::Ambiguous) => Err(broken(span, Rule::AmbiguousName)),
    }
}

/// The number of binders, with one more. More than an index can name are want of memory.
fn one_more(index: u32) -> Result<u32, Memory>
    ensures { IfOk result (λ more. more ≡ index + 1) }
{
    index.checked_add(1).ok_or(Memory)
}

/// Whether a path is one name, which is that of a binder.
fn is_named(name: Option<&Name>, written: &Path) -> bool
    ensures { result ≡ is_named_by (option_copied name.entry) written.now }
{
    match (name, written.as_slice()) {
        (Some(name), [only]) => name == only,
        _ => false,
    }
}

/// The variable at an index that is counted from the end.
fn innermost(vars: &[(Binder, Fam)], index: usize) -> Option<&(Binder, Fam)>
    ensures { option_copied result ≡ slice_get (reverse vars.now) index }
{
    if index < vars.len() {
        vars.get(vars.len() - 1 - index)
    } else {
        None
    }
}

impl<'a> Context<'a> {
    /// The scope with the given variables. More than an index can name are want of memory.
    pub(crate) fn new(scope: &'a TabledScope<'a>, vars: &'a Vars) -> Result<Context<'a>, Memory>
        ensures scope { IfOk result (λ context. scope_of context ≡ read_tabled scope.now) }
        ensures locals { IfOk result (λ context. locals_of context ≡ read_locals vars.now) }
    {
        let given = GivenVariables::new(vars)?;
        Ok(Context {
            scope,
            variables: Variables::Given(given),
        })
    }

    /// The context under a binder of that name, if it has one, whose variable has that family. Callers lend a context that
    /// they were lent anew, `(&*context).under(..)`: within a cycle of calls the proof wants the shorter loan.
    pub(crate) fn under(&'a self, name: Option<&'a Name>, family: &'a Fam) -> Context<'a>
        ensures scope { scope_of result ≡ scope_of self.now }
        ensures locals { locals_of result ≡ with_local (option_copied name.entry) (read_family family.now) (locals_of self.now) }
    {
        Context {
            scope: self.scope,
            variables: Variables::Bound {
                name,
                family,
                outer: &self.variables,
            },
        }
    }

    /// What a name begins as where something of this level is wanted.
    pub(crate) fn name_head(
        &self,
        alloc: Global,
        span: Span,
        written: &Path,
        level: Level,
    ) -> Result<Head<'a>, ElabFault>
        ensures { Begins result (name_head (read_level level) (scope_of self.now) (locals_of self.now) (read_span span) written.now) }
    {
        match self.variables.resolve(self.scope, span, written)? {
            Found::Var(index) => self.variable_head(alloc, span, index, level),
            Found::Decl(decl) => declared_head(alloc, span, decl, level),
        }
    }

    /// A variable begins as itself, at its family raised to where it stands.
    fn variable_head(
        &self,
        alloc: Global,
        span: Span,
        index: u32,
        level: Level,
    ) -> Result<Head<'a>, ElabFault>
        ensures { Begins result (levelled (read_level level) (read_span span) (variable_head index (family_at (locals_of self.now) index) (read_span span))) }
    {
        let Some(family) = self.variables.family(index) else {
            return Err(broken(span, Rule::UnknownName));
        };
        let Level::Objects = level else {
            return Err(broken(span, Rule::Level));
        };
        let family = Box::new(alloc, shift_fam(alloc, family, one_more(index)?, 0)?)?;
        Ok(Head {
            start: Start::Variable(index),
            arguments: Vec::new(alloc),
            classifier: Classifier::Family(Lent::Made(family)),
        })
    }

    /// The declaration that a name stands for. A variable is none.
    pub(crate) fn declaration(&self, span: Span, written: &Path) -> Result<&'a FlatDecl, ElabFault>
        ensures { Expands (λ decl. read_declaration decl.now) result (resolved_declaration (read_span span) (resolution.resolve (scope_of self.now) (variables_of (locals_of self.now)) written.now)) }
    {
        match self.variables.resolve(self.scope, span, written)? {
            Found::Decl(decl) => Ok(decl),
            Found::Var(_) => Err(broken(span, Rule::UnknownName)),
        }
    }
}

/// A declared constant begins as its value or as itself, at its classifier.
fn declared_head<'a>(
    alloc: Global,
    span: Span,
    decl: &'a FlatDecl,
    level: Level,
) -> Result<Head<'a>, ElabFault>
    ensures { Begins result (levelled (read_level level) (read_span span) (Ok (meant.declared_head (read_declaration decl.now)))) }
{
    match (&decl.class, level) {
        (Class::Fam(family), Level::Objects) => Ok(Head {
            start: Start::Constant(decl),
            arguments: Vec::new(alloc),
            classifier: Classifier::Family(Lent::Borrowed(family)),
        }),
        (Class::Kind(kind), Level::Families) => Ok(Head {
            start: Start::Constant(decl),
            arguments: Vec::new(alloc),
            classifier: Classifier::Kind(Lent::Borrowed(kind)),
        }),
        (Class::Fam(_), Level::Families) => Err(broken(span, Rule::Level)),
        (Class::Kind(_), Level::Objects) => Err(broken(span, Rule::Level)),
    }
}

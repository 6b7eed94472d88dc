//! What terms are checked over: a signature and a context.
ghost use Rattle.std.specs.Prelude.{◌≡◌, ◌∷◌, take, reverse, slice_get};
ghost use Rattle.std.specs.Option.{option_copied, option_map};
ghost use Rattle.lf_meaning.specs.Signatures.{class_of, declaration_of};
ghost use Rattle.term_trees.specs.Readings.{read_constant, read_class, read_context, read_declaration, read_family, read_signature};
ghost use Rattle.lf_check.specs.Environments.{context_over, read_variables, signature_over};

use lf_terms::{Class, Ctx, Fam, FlatDecl, FlatSig, QName};

/// The variables of a context, and behind them those of the binders that were passed. A binder takes no memory, and a
/// look-up goes over the binders inside of the variable.
#[derive(Clone, Copy)]
pub(crate) enum Variables<'a> {
    Given(&'a Ctx),
    Bound {
        family: &'a Fam,
        outer: &'a Variables<'a>,
    },
}

/// The first so many declarations of a signature, and variables.
#[derive(Clone, Copy)]
pub(crate) struct Environment<'a> {
    sig: &'a FlatSig,
    count: usize,
    variables: Variables<'a>,
}

impl<'a> Variables<'a> {
    /// The family of a variable. None exactly where the index is past the context.
    fn family(&self, index: u32) -> Option<&'a Fam>
        ensures { option_map (λ a. read_family a.now) result ≡ slice_get (read_variables self.now) index }
    {
        match self {
            Variables::Given(ctx) => innermost(ctx.as_slice(), index as usize),
            Variables::Bound { family, outer } => match index.checked_sub(1) {
                Some(index) => outer.family(index),
                None => Some(*family),
            },
        }
    }
}

/// The family at an index that is counted from the end.
fn innermost(families: &[Fam], index: usize) -> Option<&Fam>
    ensures { option_copied result ≡ slice_get (reverse families.now) index }
{
    if index < families.len() {
        families.get(families.len() - 1 - index)
    } else {
        None
    }
}

impl<'a> Environment<'a> {
    /// All declarations of the signature, and the context.
    pub(crate) fn new(sig: &'a FlatSig, ctx: &'a Ctx) -> Environment<'a>
        ensures signature { signature_over result ≡ read_signature sig.now }
        ensures context { context_over result ≡ read_context ctx.now }
    {
        Environment {
            sig,
            count: sig.len(),
            variables: Variables::Given(ctx),
        }
    }

    /// The declarations before an index, and the context.
    pub(crate) fn before(sig: &'a FlatSig, index: usize, ctx: &'a Ctx) -> Environment<'a>
        ensures signature { signature_over result ≡ read_signature (take index sig.now) }
        ensures context { context_over result ≡ read_context ctx.now }
    {
        Environment {
            sig,
            count: index,
            variables: Variables::Given(ctx),
        }
    }

    /// The environment under a binder whose variable has that family. Callers lend an environment that they were lent anew,
    /// `(&*environment).under(..)`: within a cycle of calls the proof wants the shorter loan.
    pub(crate) fn under(&'a self, family: &'a Fam) -> Environment<'a>
        ensures signature { signature_over result ≡ signature_over self.now }
        ensures context { context_over result ≡ read_family family.now ∷ context_over self.now }
    {
        Environment {
            sig: self.sig,
            count: self.count,
            variables: Variables::Bound {
                family,
                outer: &self.variables,
            },
        }
    }

    /// The family of a variable. None exactly where the index is past the context.
    pub(crate) fn family(&self, index: u32) -> Option<&Fam>
        ensures { option_map (λ a. read_family a.now) result ≡ slice_get (context_over self.now) index }
    {
        self.variables.family(index)
    }

    /// The declaration of a name among those that count.
    fn declaration(&self, name: &QName) -> Option<&FlatDecl>
        ensures { option_map (λ d. read_declaration d.now) result ≡ declaration_of (signature_over self.now) (read_constant name.now) }
    {
        match self.sig.place(name) {
            Some(place) if place < self.count => self.sig.at(place),
            // two arms: each leaves its own fact for the proof
            Some(_) => None,
            None => None,
        }
    }

    /// The classifier of a constant. None exactly where the name is not declared or is defined.
    pub(crate) fn class(&self, name: &QName) -> Option<&Class>
        ensures { option_map (λ k. read_class k.now) result ≡ class_of (signature_over self.now) (read_constant name.now) }
    {
        match self.declaration(name)? {
            FlatDecl {
                class,
                value: None,
                ..
            } => Some(class),
            _ => None,
        }
    }
}

//! Declarations that a table finds by their names.
ghost use Rattle.std.specs.Prelude.{◌≡◌};
ghost use Rattle.std.specs.Cmp.{decided, partial_equiv_from_equiv};
ghost use Rattle.std.specs.Hash as fed;
ghost use Rattle.std.specs.Option.{option_copied};
ghost use Rattle.lf_meaning.specs.Signatures.{same_constant};
ghost use Rattle.term_trees.specs.Readings.{read_constant};
ghost use Rattle.term_trees.proofs.Below.Equality.{same_constant_decides};
ghost use Rattle.lf_terms.specs.NamedConstants.{fed_of, named_by, same_name_equiv};

use crate::path_names::NamesIn;
use base_types::QName;
use indexmap::Equivalent;
use std::hash::{Hash, Hasher};
use std::marker::Model;
use term_trees::FlatDecl;

/// A declaration, seen as itself, that is equal to each of its name: so a table need not hold the name once more.
#[derive(Debug, Drop)]
pub(crate) struct Named {
    decl: FlatDecl,
}

impl Model for Named {
    ghost use Rattle.term_trees.specs.declared.flat_decl.FlatDecl.{FlatDecl};
    ghost use Rattle.term_trees.specs.contracts.flat_decl.FlatDecl as e;

    ghost Value = { FlatDecl };

    ghost coded = { e.the_row.coded };

    ghost view = { λ n. n.decl };
}

impl Named {
    /// The declaration, to be found by its name.
    pub(crate) fn new(decl: FlatDecl) -> Named
        ensures { result ≡ decl }
    {
        Named { decl }
    }

    /// The declaration.
    pub(crate) fn declaration(&self) -> &FlatDecl
        ensures { result.now ≡ self.now }
    {
        &self.decl
    }

    /// The declaration, taken out.
    pub(crate) fn into_declaration(self) -> FlatDecl
        ensures { result ≡ self }
    {
        self.decl
    }
}

/// The declaration that is found, if one is.
pub(crate) fn found_declaration(found: Option<&Named>) -> Option<&FlatDecl>
    ensures { option_copied result ≡ option_copied found.entry }
{
    match found {
        Some(named) => Some(named.declaration()),
        None => None,
    }
}

impl PartialEq for Named {
    ghost eq = { λ d e. same_constant (read_constant d.name) (read_constant e.name) };

    ghost laws = { partial_equiv_from_equiv same_name_equiv };

    fn eq(&self, other: &Self) -> bool {
        self.decl.name == other.decl.name
    }
}

impl Eq for Named {
    ghost laws = { same_name_equiv };
}

impl Hash for Named {
    ghost hash_input = { λ d. fed_of (read_constant d.name) };

    ghost respects_eq = { λ d e. (fed.same_Alike fed_of same_constant_decides).fed (read_constant d.name) (read_constant e.name) };

    fn hash<H: Hasher>(&self, state: &mut H) {
        self.decl.name.hash(state);
    }
}

/// A name by which a declaration is looked up.
#[derive(Clone, Copy, PartialEq, Eq)]
pub(crate) struct ByName<'a>(pub(crate) &'a QName);

impl Hash for ByName<'_> {
    ghost hash_input = { λ q. fed_of (read_constant q.0.now) };

    ghost respects_eq = { λ q r. (fed.same_Alike fed_of same_constant_decides).fed (read_constant q.0.now) (read_constant r.0.now) };

    fn hash<H: Hasher>(&self, state: &mut H) {
        self.0.hash(state);
    }
}

impl Equivalent<Named> for ByName<'_> {
    ghost equivalent = { λ q d. same_constant (read_constant q.0.now) (read_constant d.name) };

    ghost respects_hash = { λ q d. (fed.same_Alike fed_of same_constant_decides).fed (read_constant q.0.now) (read_constant d.name) };

    ghost respects_eq = { λ q d e. (decided same_constant same_constant_decides).congr (read_constant q.0.now) (read_constant d.name) (read_constant e.name) };

    fn equivalent(&self, key: &Named) -> bool {
        *self.0 == key.decl.name
    }
}

impl Equivalent<Named> for NamesIn<'_> {
    ghost equivalent = { λ q d. same_constant (named_by q) (read_constant d.name) };

    ghost respects_hash = { λ q d. (fed.same_Alike fed_of same_constant_decides).fed (named_by q) (read_constant d.name) };

    ghost respects_eq = { λ q d e. (decided same_constant same_constant_decides).congr (named_by q) (read_constant d.name) (read_constant e.name) };

    fn equivalent(&self, key: &Named) -> bool {
        *self.theory == key.decl.name.theory && self.names == key.decl.name.path.as_slice()
    }
}

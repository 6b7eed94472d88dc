//! Outcomes of names and applications where more is wanted than an atomic term: their long forms.
ghost use Rattle.std.specs.Prelude.{◌≡◌, zero, IfOk};
ghost use Rattle.lf_meaning.specs.Terms as terms;
ghost use Rattle.lf_meaning.specs.Erasure as erasure;
ghost use Rattle.eta_meaning.specs.LongTerms as meant;
ghost use Rattle.elaborate_meaning.specs.Values.{expanded_family};
ghost use Rattle.term_trees.specs.Readings.{read_arguments, read_family, read_head, read_kind, read_object};

use hereditary_subst::{eta, eta_fam};
use lf_terms::{Fam, Head, Kind, Memory, Obj, Spine, erase};
use std::alloc::Global;

/// What an outcome stands for at a family: itself where the family is atomic or the outcome is a λ; an atomic one at a Π
/// stands for its long form (Harper and Licata 2007, section 2).
pub(crate) fn long_object(alloc: Global, family: &Fam, outcome: Obj) -> Result<Obj, Memory>
    ensures { IfOk result (λ m. read_object m ≡ meant.expanded (read_family family.now) (read_object outcome)) }
{
    match family {
        Fam::At { .. } => Ok(outcome),
        Fam::Pi(_, _) => match &outcome {
            Obj::Lam(_) => Ok(outcome),
            Obj::At { head, spine } => long_atom(alloc, family, head, spine),
        },
    }
}

/// The long form of an atomic object at a family.
fn long_atom(alloc: Global, family: &Fam, head: &Head, spine: &Spine) -> Result<Obj, Memory>
    ensures { IfOk result (λ m. read_object m ≡ meant.eta (erasure.erase (read_family family.now)) (terms.apply_all (read_head head.now) (read_arguments spine.now))) }
{
    let simple = Box::new(alloc, erase(alloc, family)?)?;
    eta(alloc, &simple, head, spine.as_slice())
}

/// What an outcome without binders stands for behind the domains of a kind: applied to the long forms of their variables.
/// A Π takes no argument.
pub(crate) fn long_family(alloc: Global, kind: &Kind, outcome: Fam) -> Result<Fam, Memory>
    ensures { IfOk result (λ a. read_family a ≡ expanded_family (read_kind kind.now) zero (read_family outcome)) }
{
    match &outcome {
        Fam::Pi(_, _) => Ok(outcome),
        Fam::At { head, spine } => eta_fam(alloc, kind, head, spine.as_slice()),
    }
}

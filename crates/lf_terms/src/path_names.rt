//! Names in the place of the path that they make, and of a constant.
ghost use Rattle.std.specs.Prelude.{nat_eq};
ghost use Rattle.std.specs.Cmp.{unsigned_Decides};
ghost use Rattle.std.specs.Cmp.Lexicographic.{pointwise, pointwise_decides, lists_equiv, nat_list_eq_equiv};
ghost use Rattle.std.specs.Hash as fed;
ghost use Rattle.base_types.specs.Digests.{digest_of};
ghost use Rattle.lf_terms.specs.NamedConstants.{fed_of, named_by};
ghost use Rattle.term_trees.proofs.Below.Equality.{same_constant_decides};

use base_types::{Name, Path, digest_of};
use indexmap::Equivalent;
use std::hash::{Hash, Hasher};

/// Names by which a path is looked up, so that no path need be made of them.
#[derive(Clone, Copy, PartialEq, Eq)]
pub(crate) struct PathNames<'a>(pub(crate) &'a [Name]);

impl Hash for PathNames<'_> {
    ghost hash_input = { λ q. fed.u64 (digest_of q.0.now) };

    ghost respects_eq = { λ q r. (fed.same_Alike (λ names. fed.u64 (digest_of names)) (pointwise_decides (pointwise_decides unsigned_Decides))).fed q.0.now r.0.now };

    fn hash<H: Hasher>(&self, state: &mut H) {
        state.write_u64(digest_of(self.0));
    }
}

impl Equivalent<Path> for PathNames<'_> {
    ghost equivalent = { λ q. pointwise (pointwise nat_eq) q.0.now };

    ghost respects_hash = { λ q. (fed.same_Alike (λ names. fed.u64 (digest_of names)) (pointwise_decides (pointwise_decides unsigned_Decides))).fed q.0.now };

    ghost respects_eq = { λ q. (lists_equiv nat_list_eq_equiv).congr q.0.now };

    fn equivalent(&self, key: &Path) -> bool {
        self.0 == key.as_slice()
    }
}

/// A theory and names by which a constant is looked up, so that no path need be made of them.
#[derive(Clone, Copy, PartialEq, Eq)]
pub(crate) struct NamesIn<'a> {
    pub(crate) theory: &'a Name,
    pub(crate) names: &'a [Name],
}

impl Hash for NamesIn<'_> {
    ghost hash_input = { λ q. fed_of (named_by q) };

    ghost respects_eq = { λ q r. (fed.same_Alike fed_of same_constant_decides).fed (named_by q) (named_by r) };

    fn hash<H: Hasher>(&self, state: &mut H) {
        self.theory.hash(state);
        PathNames(self.names).hash(state);
    }
}

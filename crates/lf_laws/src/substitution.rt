//! Substitution keeps typing, and commutes.
ghost use Rattle.std.specs.Prelude.{◌≡◌, ◌∷◌, ◌++◌, length};
ghost use Rattle.lf_meaning.specs.Terms.{Simple as SimpleType, SimpleContext};
ghost use Rattle.lf_meaning.specs.Erasure.{erase};
ghost use Rattle.lf_meaning.specs.Substitution.{substitute, substitute_context, substitute_family};
ghost use Rattle.lf_meaning.specs.Judgements.{Checks, IsSignature, IsTyping};
ghost use Rattle.lf_meaning.specs.Misfits.{NoMisfit, NoMisfitInContext, NoMisfitInFamily};
ghost use Rattle.lf_meaning.specs.Sorts.{HasSort, Sorts};
ghost use Rattle.term_trees.specs.Readings.{read_context, read_family, read_object, read_signature, read_simple};

use lf_terms::{Ctx, Fam, FlatSig, Obj, Simple};

/// Substitution keeps typing (Harper and Licata 2007, section 2). The signature is well typed; the value checks against the family
/// `of` in `ctx`; and the object and the family are a typing judgement, in a well-formed context, behind a variable of that family
/// and the families of `after`.
pub fn law_subst(sig: &FlatSig, ctx: &Ctx, after: &Ctx, value: &Obj, of: &Fam, obj: &Obj, fam: &Fam)
    // Then the substituted object and family are one, behind the substituted families of `after`.
    ensures typing { IsSignature (read_signature sig.now)
        → Checks (read_signature sig.now) (read_context ctx.now) (read_object value.now) (read_family of.now)
        → IsTyping (read_signature sig.now) (read_context after.now ++ read_family of.now ∷ read_context ctx.now) (read_object obj.now) (read_family fam.now)
        → IsTyping (read_signature sig.now) (substitute_context (read_object value.now) (erase (read_family of.now)) (read_context after.now) ++ read_context ctx.now)
        (substitute (read_object value.now) (erase (read_family of.now)) (length after.now) (read_object obj.now))
        (substitute_family (read_object value.now) (erase (read_family of.now)) (length after.now) (read_family fam.now)) }

    // No step of the substitution meets a misfit.
    ensures no_misfit { IsSignature (read_signature sig.now)
        → Checks (read_signature sig.now) (read_context ctx.now) (read_object value.now) (read_family of.now)
        → IsTyping (read_signature sig.now) (read_context after.now ++ read_family of.now ∷ read_context ctx.now) (read_object obj.now) (read_family fam.now)
        → NoMisfit (read_object value.now) (erase (read_family of.now)) (length after.now) (read_object obj.now)
        × NoMisfitInFamily (read_object value.now) (erase (read_family of.now)) (length after.now) (read_family fam.now)
        × NoMisfitInContext (read_object value.now) (erase (read_family of.now)) (read_context after.now) }
{}

/// Substitutions commute, for well-sorted objects, whatever the simple types of constants and of the variables behind.
pub fn law_commute(outer: &Obj, outer_type: &Simple, inner: &Obj, inner_type: &Simple, into: &Obj)
    ensures { (sorts : Sorts) (context : SimpleContext) (sort : SimpleType)
        → HasSort sorts context (read_object outer.now) (read_simple outer_type.now)
        → HasSort sorts (read_simple outer_type.now ∷ context) (read_object inner.now) (read_simple inner_type.now)
        → HasSort sorts (read_simple inner_type.now ∷ read_simple outer_type.now ∷ context) (read_object into.now) sort
        → substitute (read_object outer.now) (read_simple outer_type.now) 0 (substitute (read_object inner.now) (read_simple inner_type.now) 0 (read_object into.now))
        ≡ substitute (substitute (read_object outer.now) (read_simple outer_type.now) 0 (read_object inner.now)) (read_simple inner_type.now) 0
        (substitute (read_object outer.now) (read_simple outer_type.now) 1 (read_object into.now)) }
{}

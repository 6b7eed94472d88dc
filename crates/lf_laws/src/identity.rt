//! The identity theorem: long forms of what is typed check, and take arguments as what they are of.
ghost use Rattle.std.specs.Prelude.{◌≡◌, ℕ, suc, List, Some, slice_get};
ghost use Rattle.lf_meaning.specs.Terms.{Atomic, Family, Object, Pi, Simple as SimpleType, SimpleContext, At, Var, apply_all};
ghost use Rattle.lf_meaning.specs.Raising.{raise_family};
ghost use Rattle.lf_meaning.specs.Erasure.{erase};
ghost use Rattle.lf_meaning.specs.Substitution.{reduce};
ghost use Rattle.lf_meaning.specs.Judgements.{Checks, IsContext, IsSignature, Synthesises};
ghost use Rattle.lf_meaning.specs.Sorts.{Sorts};
ghost use Rattle.eta_meaning.specs.LongTerms.{eta};
ghost use Rattle.eta_laws.specs.LongTermLaws.{FillDomains};
ghost use Rattle.term_trees.specs.Readings.{read_context, read_signature};

use lf_terms::{Ctx, FlatSig};

/// The identity theorem (Harper and Licata 2007, section 2). The signature is well typed and the context well formed.
pub fn law_identity(sig: &FlatSig, ctx: &Ctx, var: u32)
    // Then the long form of a variable of the context (counted from the innermost, from 0), at the erasure of its family raised to
    // its place, checks against that family.
    ensures variable { (family : Family)
        → IsSignature (read_signature sig.now)
        → IsContext (read_signature sig.now) (read_context ctx.now)
        → slice_get (read_context ctx.now) var ≡ Some family
        → Checks (read_signature sig.now) (read_context ctx.now) (eta (erase (raise_family (suc var) 0 family)) (Var var)) (raise_family (suc var) 0 family) }

    // So does the long form of each atomic object that is typed at a Π.
    ensures atomic { (r : Atomic) (domain codomain : Family)
        → IsSignature (read_signature sig.now)
        → IsContext (read_signature sig.now) (read_context ctx.now)
        → Synthesises (read_signature sig.now) (read_context ctx.now) r (Pi domain codomain)
        → Checks (read_signature sig.now) (read_context ctx.now) (eta (erase (Pi domain codomain)) r) (Pi domain codomain) }

    // Applied to as many well-sorted arguments as its simple type has domains, a long form gives the atomic object with these
    // arguments, whatever the simple types of constants and variables.
    ensures applied { (sorts : Sorts) (context : SimpleContext) (t : SimpleType) (r : Atomic) (arguments : List Object)
        → FillDomains sorts context t arguments
        → reduce (eta t r) t arguments ≡ At (apply_all r arguments) }
{}

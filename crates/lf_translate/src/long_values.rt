//! Long forms of values (Harper and Licata 2007, section 2: η-expansion at simple types). Values in links are compared by them.
ghost use Rattle.std.specs.Prelude.{◌≡◌, IfOk};
ghost use Rattle.lf_meaning.specs.Signatures.{FamilyClass, KindClass};
ghost use Rattle.eta_meaning.specs.LongValues as meant;
ghost use Rattle.term_trees.specs.Readings.{read_class, read_constant, read_family, read_kind, read_value};

use hereditary_subst::{domain_count, eta, eta_fam};
use lf_terms::{Class, Fam, Head, Kind, Memory, QName, Value, erase};
use std::alloc::Global;

/// The long form of a value at its classifier. "The same as a constant" becomes a term at a Π, and at a kind with domains a
/// family with as many binders; where the classifier begins with no Π it stays. A term and a family with binders are copied:
/// where they fit the classifier they are in long form already.
///
/// Memory as for the long forms of `hereditary_subst`.
pub fn long_value(alloc: Global, class: &Class, value: &Value) -> Result<Value, Memory>
    ensures { IfOk result (λ long. read_value long ≡ meant.long_value (read_class class.now) (read_value value.now)) }
{
    match value {
        Value::Same(constant) => match class {
            Class::Fam(family) => at_family(alloc, family, constant),
            Class::Kind(kind) => at_kind(alloc, kind, constant),
        },
        Value::Term(_) => value.copy(alloc),
        Value::Fam { .. } => value.copy(alloc),
    }
}

/// The long form of the same as a constant, at a family.
fn at_family(alloc: Global, family: &Fam, constant: &QName) -> Result<Value, Memory>
    ensures { IfOk result (λ long. read_value long ≡ meant.long_constant (FamilyClass (read_family family.now)) (read_constant constant.now)) }
{
    match family {
        Fam::Pi(_, _) => {
            let simple = erase(alloc, family)?;
            let head = Head::Con(constant.copy(alloc)?);
            Ok(Value::Term(eta(alloc, &simple, &head, &[])?))
        }
        Fam::At { .. } => Ok(Value::Same(constant.copy(alloc)?)),
    }
}

/// The long form of the same as a constant, at a kind.
fn at_kind(alloc: Global, kind: &Kind, constant: &QName) -> Result<Value, Memory>
    ensures { IfOk result (λ long. read_value long ≡ meant.long_constant (KindClass (read_kind kind.now)) (read_constant constant.now)) }
{
    match kind {
        Kind::Pi(_, _) => Ok(Value::Fam {
            binders: domain_count(kind)?,
            body: eta_fam(alloc, kind, constant, &[])?,
        }),
        Kind::Ty => Ok(Value::Same(constant.copy(alloc)?)),
    }
}

//! Classes and values.
ghost use Rattle.std.specs.Prelude.{◌≡◌, ◌++◌, OnOk};
ghost use Rattle.printing_meaning.specs.PrintedTerms as printed;
ghost use Rattle.term_trees.specs.Readings.{read_class, read_value};
ghost use Rattle.term_text.specs.Readings.{read_seen};

use crate::Seen;
use crate::constants::constant;
use crate::families::{family, kind};
use crate::objects::{binder, object};
use lf_terms::{Bytes, Class, Memory, Value};
use std::alloc::Global;

/// Writes a class.
pub fn class(alloc: Global, out: &mut Bytes, seen: &Seen<'_>, written: &Class) -> Result<(), Memory>
    ensures { OnOk result (out.new ≡ out.old ++ printed.class_text (read_seen seen.now) (read_class written.now)) }
{
    match written {
        Class::Fam(term) => family(alloc, out, seen, 0, term),
        Class::Kind(term) => kind(alloc, out, seen, 0, term),
    }
}

/// Writes a value. A family value has its binders in front, each as that of a λ.
pub fn value(alloc: Global, out: &mut Bytes, seen: &Seen<'_>, written: &Value) -> Result<(), Memory>
    ensures { OnOk result (out.new ≡ out.old ++ printed.value_text (read_seen seen.now) (read_value written.now)) }
{
    match written {
        Value::Same(name) => constant(out, seen, name),
        Value::Term(term) => object(alloc, out, seen, 0, term),
        Value::Fam { binders, body } => {
            for number in 0..*binders {
                binder(alloc, out, seen, number + 1)?;
            }
            family(alloc, out, seen, *binders, body)
        }
    }
}

//! Classifiers and values of constants.
ghost use Rattle.std.specs.Prelude.{◌≡◌, IfOk};
ghost use Rattle.term_trees.specs.Readings.{read_class, read_value};

use crate::{Fam, Kind, Obj};
use base_types::{Memory, QName};
use std::alloc::Global;

/// The classifier of a constant.
#[derive(Debug, Drop)]
pub enum Class {
    Kind(Kind),
    Fam(Fam),
}

/// The value of a defined constant: the same as another constant, an object, or a family with so many binders.
#[derive(Debug, Drop)]
pub enum Value {
    Same(QName),
    Term(Obj),
    Fam { binders: u32, body: Fam },
}

impl Class {
    /// An equal classifier, copied as its kind or family is. It recurses as deep as the classifier is nested, arguments
    /// included; letting a classifier go does so too.
    pub fn copy(&self, alloc: Global) -> Result<Class, Memory>
        ensures { IfOk result (λ class. read_class class ≡ read_class self.now) }
    {
        match self {
            Class::Kind(kind) => Ok(Class::Kind(kind.copy(alloc)?)),
            Class::Fam(family) => Ok(Class::Fam(family.copy(alloc)?)),
        }
    }
}

impl Value {
    /// An equal value, copied as its object or family is. It recurses as deep as the value is nested, arguments
    /// included; letting a value go does so too.
    pub fn copy(&self, alloc: Global) -> Result<Value, Memory>
        ensures { IfOk result (λ value. read_value value ≡ read_value self.now) }
    {
        match self {
            Value::Same(constant) => Ok(Value::Same(constant.copy(alloc)?)),
            Value::Term(object) => Ok(Value::Term(object.copy(alloc)?)),
            Value::Fam { binders, body } => Ok(Value::Fam {
                binders: *binders,
                body: body.copy(alloc)?,
            }),
        }
    }
}

//! Declarations of constants.
ghost use Rattle.std.specs.Prelude.{◌≡◌, IfOk};
ghost use Rattle.term_trees.specs.Readings.{read_declaration, read_image};

use crate::{Class, Value};
use base_types::{Memory, QName};
use std::alloc::Global;

/// A constant with its classifier, and its value where it is defined.
#[derive(Debug, Drop)]
pub struct FlatDecl {
    pub name: QName,
    pub class: Class,
    pub value: Option<Value>,
}

/// What a map gives for a constant: the translated classifier, and the value over the target.
#[derive(Debug, Drop)]
pub struct Image {
    pub class: Class,
    pub value: Value,
}

impl FlatDecl {
    /// An equal declaration: its name over the same bytes, its classifier and its value copied as terms are.
    pub fn copy(&self, alloc: Global) -> Result<FlatDecl, Memory>
        ensures { IfOk result (λ decl. read_declaration decl ≡ read_declaration self.now) }
    {
        let value = match &self.value {
            Some(value) => Some(value.copy(alloc)?),
            None => None,
        };
        Ok(FlatDecl {
            name: self.name.copy(alloc)?,
            class: self.class.copy(alloc)?,
            value,
        })
    }
}

impl Image {
    /// An equal image, its classifier and its value copied as terms are.
    pub fn copy(&self, alloc: Global) -> Result<Image, Memory>
        ensures { IfOk result (λ image. read_image image ≡ read_image self.now) }
    {
        Ok(Image {
            class: self.class.copy(alloc)?,
            value: self.value.copy(alloc)?,
        })
    }
}

//! The images that a map gives to constants of one theory, which maps share.
ghost use Rattle.std.specs.Prelude.{◌≡◌, ◌∷◌, ◌++◌, [], length, slice_get, IfOk, if◌then◌else◌};
ghost use Rattle.std.specs.Option.{option_copied, option_map};
ghost use Rattle.lf_terms.specs.Parts.{AreOfTheory};
ghost use Rattle.lf_terms.specs.Tables.{image_of, HasDistinctHeads};

use base_types::{Memory, Name, QName};
use indexmap::IndexMap;
use std::alloc::Global;
use std::marker::Model;
use term_trees::Image;

/// Different constants of one theory with their images, seen as the list of the pairs, in the order in which they came.
#[derive(Debug, Drop)]
pub struct MapPart {
    theory: Name,
    images: IndexMap<QName, Image>,
}

impl Model for MapPart {
    ghost use Rattle.std.specs.Prelude.{List};
    ghost use Rattle.std.specs.Coded.{codes};
    ghost use Rattle.base_types.specs.declared.qname.QName.{QName};
    ghost use Rattle.term_trees.specs.declared.flat_decl.Image.{Image};
    ghost use Rattle.base_types.specs.contracts.qname.QName as q;
    ghost use Rattle.term_trees.specs.contracts.flat_decl.Image as e;
    ghost use Rattle.lf_terms.specs.Parts.{AreOfTheory};

    ghost Value = { List (QName × Image) };

    ghost coded = { Prim.hlevel (codes, q.the_row.coded, e.the_row.coded) };

    ghost view = { λ p. p.images.entries };

    ghost invariant = { λ p. AreOfTheory p.theory p.images.entries };
}

impl MapPart {
    /// No constants, of this theory, and room for so many.
    pub(crate) fn with_capacity(
        alloc: Global,
        theory: &Name,
        constants: usize,
    ) -> Result<MapPart, Memory>
        ensures { IfOk result (λ part. part ≡ []) }
    {
        Ok(MapPart {
            theory: theory.copy(alloc)?,
            images: IndexMap::with_capacity(alloc, constants)?,
        })
    }

    /// Adds a constant with its image at the end, and says so; unless it is of another theory, or has an image already.
    pub(crate) fn push(&mut self, name: QName, image: Image) -> Result<bool, Memory>
        ensures { IfOk result (λ added. self.new ≡ (if added then self.old ++ (name, image) ∷ [] else self.old)) }
    {
        if name.theory != self.theory || self.images.contains_key(&name) {
            drop(name);
            drop(image);
            return Ok(false);
        }
        let previous = self.images.insert(name, image)?;
        drop(previous);
        Ok(true)
    }

    /// The theory.
    pub(crate) fn theory(&self) -> &Name
        ensures { AreOfTheory result.now self.now }
    {
        &self.theory
    }

    /// The image of a constant. None exactly where the name is not there.
    pub(crate) fn get(&self, name: &QName) -> Option<&Image>
        ensures { option_copied result ≡ image_of self.now name.now }
    {
        self.images.get(name)
    }

    /// The constant at an index with its image. None exactly where the index is past the end.
    pub(crate) fn at(&self, i: usize) -> Option<(&QName, &Image)>
        ensures { option_map (λ pair. (pair.0.now, pair.1.now)) result ≡ slice_get self.now i }
    {
        self.images.get_index(i)
    }

    /// The number of constants.
    pub(crate) fn len(&self) -> usize
        ensures len { result ≡ length self.now }
        ensures distinct { HasDistinctHeads self.now }
    {
        self.images.len()
    }
}

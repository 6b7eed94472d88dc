//! Maps from constants to their images, in order.
ghost use Rattle.std.specs.Prelude.{◌≡◌, ◌↔◌, ◌≤◌, ◌∷◌, ◌++◌, [], length, slice_get, IfErr, IfOk, IsErrOf, IsNone, IsSome, None, OnErr, OnOk, if◌then◌else◌};
ghost use Rattle.std.specs.Option.{option_copied, option_map};
ghost use Rattle.lf_meaning.specs.HeadMaps as meant;
ghost use Rattle.term_trees.specs.Readings.{read_constant, read_image, read_map, read_mapping};
ghost use Rattle.lf_terms.specs.Parts.{image_in_part};
ghost use Rattle.lf_terms.specs.Tables.{image_of, pair_handed_back, HasDistinctHeads};
ghost use Rattle.lf_terms.specs.declared.head_map.MapFault.TheVariants.{Twice};

use crate::map_part::MapPart;
use base_types::{Arc, Memory, Name, QName};
use indexmap::IndexMap;
use std::alloc::Global;
use std::marker::Model;
use term_trees::Image;

/// Different constants with their images, seen as the list of the pairs, in the order in which they came. The first of them may
/// stand in parts, which other maps share.
#[derive(Debug, Drop)]
pub struct HeadMap {
    /// The first pairs, in parts under the names of their theories.
    parts: IndexMap<Name, Arc<MapPart>>,
    /// The pairs behind these.
    own: IndexMap<QName, Image>,
    /// The number of all pairs.
    count: usize,
}

impl Model for HeadMap {
    ghost use Rattle.std.specs.Prelude.{List, ◌++◌};
    ghost use Rattle.std.specs.Coded.{codes};
    ghost use Rattle.base_types.specs.declared.qname.QName.{QName};
    ghost use Rattle.term_trees.specs.declared.flat_decl.Image.{Image};
    ghost use Rattle.base_types.specs.contracts.qname.QName as q;
    ghost use Rattle.term_trees.specs.contracts.flat_decl.Image as e;
    ghost use Rattle.lf_terms.specs.Parts.{pairs_of, HasParts};

    ghost Value = { List (QName × Image) };

    ghost coded = { Prim.hlevel (codes, q.the_row.coded, e.the_row.coded) };

    ghost view = { λ m. pairs_of m.parts.entries ++ m.own.entries };

    ghost invariant = { λ m. HasParts m.parts.entries m.own.entries m.count };
}

/// The image of a constant in the part of its theory.
fn image_in_part<'a>(parts: &'a IndexMap<Name, Arc<MapPart>>, name: &QName) -> Option<&'a Image>
    ensures { option_copied result ≡ image_in_part parts.now.entries name.now }
{
    match parts.get(&name.theory) {
        Some(part) => part.get().get(name),
        None => None,
    }
}

/// Why a pair was not added. It comes back with the reason.
#[derive(Debug, Drop)]
pub enum MapFault {
    /// The constant has an image already.
    Twice(QName, Image),
    /// Want of memory.
    Memory(QName, Image),
}

impl HeadMap {
    /// No constants. It takes no memory.
    pub fn new(alloc: Global) -> HeadMap
        ensures { result ≡ [] }
    {
        HeadMap {
            parts: IndexMap::new(alloc),
            own: IndexMap::new(alloc),
            count: 0,
        }
    }

    /// Makes room for so many more constants, so that their table grows at once. It may find no memory.
    pub fn reserve(&mut self, additional: usize) -> Result<(), Memory>
        ensures { self.new ≡ self.old }
    {
        self.own.reserve(additional)?;
        Ok(())
    }

    /// Adds a constant with its image at the end, or hands both back: `Twice` exactly where the constant has an image
    /// already, `Memory` for want of memory.
    pub fn push(&mut self, name: QName, image: Image) -> Result<(), MapFault>
        ensures ok { OnOk result (self.new ≡ self.old ++ (name, image) ∷ []) }
        ensures err { OnErr result (self.new ≡ self.old) }
        ensures twice { IsErrOf result (Twice name image) ↔ IsSome (image_of self.old name) }
        ensures back { IfErr result (λ fault. pair_handed_back fault ≡ (name, image)) }
    {
        if self.get(&name).is_some() {
            return Err(MapFault::Twice(name, image));
        }
        match self.append(name, image) {
            Ok(()) => Ok(()),
            Err((name, image)) => Err(MapFault::Memory(name, image)),
        }
    }

    /// Adds a constant that has no image yet, with its image, at the end, or hands both back for want of memory. It hashes the name
    /// once.
    fn append(&mut self, name: QName, image: Image) -> Result<(), (QName, Image)>
        requires { image_of self.old name ≡ None }
        ensures ok { OnOk result (self.new ≡ self.old ++ (name, image) ∷ []) }
        ensures err { OnErr result (self.new ≡ self.old) }
        ensures back { IfErr result (λ back. back ≡ (name, image)) }
    {
        let Some(count) = self.count.checked_add(1) else {
            return Err((name, image));
        };
        match self.own.insert(name, image) {
            Ok(previous) => {
                drop(previous);
                self.count = count;
                Ok(())
            }
            Err(failed) => Err(failed.value),
        }
    }

    /// Adds a constant that has no image yet, with its image, at the end.
    pub fn push_new(&mut self, name: QName, image: Image) -> Result<(), Memory>
        requires { image_of self.old name ≡ None }
        ensures ok { OnOk result (self.new ≡ self.old ++ (name, image) ∷ []) }
        ensures err { OnErr result (self.new ≡ self.old) }
    {
        match self.append(name, image) {
            Ok(()) => Ok(()),
            Err(back) => {
                drop(back);
                Err(Memory)
            }
        }
    }

    /// Adds the pairs of a part at the end by sharing it, which takes no memory for them, and says so. That can be done where all pairs
    /// so far stand in parts too, none of which is of its theory; elsewhere nothing is added, and whoever calls adds copies.
    pub fn share_part(&mut self, alloc: Global, part: &Arc<MapPart>) -> Result<bool, Memory>
        ensures ok { IfOk result (λ shared. self.new ≡ (if shared then self.old ++ part.now else self.old)) }
        ensures err { OnErr result (self.new ≡ self.old) }
    {
        let pairs = part.get();
        let Some(count) = self.count.checked_add(pairs.len()) else {
            return Ok(false);
        };
        let theory = pairs.theory();
        if self.own.len() > 0 || self.parts.contains_key(theory) {
            return Ok(false);
        }
        let key = theory.copy(alloc)?;
        let shared = part.share()?;
        let previous = self.parts.insert(key, shared)?;
        drop(previous);
        self.count = count;
        Ok(true)
    }

    /// The image of a constant. None exactly where the name is not there. It takes expected constant time, by a hash
    /// table.
    pub fn get(&self, name: &QName) -> Option<&Image>
        ensures image { option_copied result ≡ image_of self.now name.now }
        ensures meaning { option_map (λ i. read_image i.now) result ≡ meant.image_of (read_map self.now) (read_constant name.now) }
    {
        match image_in_part(&self.parts, name) {
            Some(image) => Some(image),
            None => self.own.get(name),
        }
    }

    /// The constant at an index, counted from 0, with its image. None exactly where the index is past the end.
    pub fn at(&self, i: usize) -> Option<(&QName, &Image)>
        ensures item { option_map (λ pair. (pair.0.now, pair.1.now)) result ≡ slice_get self.now i }
        ensures none { IsNone result ↔ (length self.now ≤ i) }
        ensures meaning { option_map (λ pair. read_mapping (pair.0.now, pair.1.now)) result ≡ slice_get (read_map self.now) i }
    {
        let mut left = i;
        for index in 0..self.parts.len() {
            if let Some((_, part)) = self.parts.get_index(index) {
                let part = part.get();
                let len = part.len();
                if left < len {
                    return part.at(left);
                }
                left -= len;
            }
        }
        self.own.get_index(left)
    }

    /// The same constants, with copies of their images.
    pub fn copy(&self, alloc: Global) -> Result<HeadMap, Memory>
        ensures { IfOk result (λ map. read_map map ≡ read_map self.now) }
    {
        let mut copied = HeadMap::new(alloc);
        for i in 0..self.len() {
            if let Some((name, image)) = self.at(i) {
                copied.push_copy(alloc, name, image)?;
            }
        }
        Ok(copied)
    }

    /// Adds copies of a constant that has no image yet and of its image.
    fn push_copy(&mut self, alloc: Global, name: &QName, image: &Image) -> Result<(), Memory>
        requires { image_of self.old name.now ≡ None }
        ensures { OnOk result (read_map self.new ≡ read_map self.old ++ read_mapping (name.now, image.now) ∷ []) }
    {
        let name = name.copy(alloc)?;
        let image = image.copy(alloc)?;
        self.push_new(name, image)?;
        Ok(())
    }

    /// The number of constants.
    pub fn len(&self) -> usize
        ensures len { result ≡ length self.now }
        ensures distinct { HasDistinctHeads self.now }
    {
        self.count
    }
}

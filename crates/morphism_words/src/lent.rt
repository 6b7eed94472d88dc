//! Links whose parts are borrowed as long as they serve as they are, so that a word that is composed is not copied.
ghost use Rattle.std.specs.Prelude.{◌≡◌, None, IfOk};
ghost use Rattle.library_meaning.specs.Words.{followed_by};
ghost use Rattle.translation_meaning.specs.Translation as meant;
ghost use Rattle.translation_meaning.specs.Unmapped.{unmapped_map};
ghost use Rattle.term_trees.specs.Readings.{read_map};
ghost use Rattle.morphism_words.specs.LentLinks.{map_in, read_lent};
ghost use Rattle.morphism_words.specs.Readings.{read_link};

use crate::Link;
use lf_terms::{HeadMap, Memory, Name};
use lf_translate::{TranslateFault, compose};
use std::alloc::Global;

/// A map that is borrowed, or one that was made.
#[derive(Drop)]
pub(crate) enum LentMap<'a> {
    Borrowed(&'a HeadMap),
    Made(HeadMap),
}

/// A link between the theories of these names.
#[derive(Drop)]
pub(crate) struct LentLink<'a> {
    pub(crate) domain: &'a Name,
    pub(crate) codomain: &'a Name,
    pub(crate) map: LentMap<'a>,
}

impl<'a> LentMap<'a> {
    fn get(&self) -> &HeadMap
        ensures { result.now ≡ map_in self.now }
    {
        match self {
            LentMap::Borrowed(map) => map,
            LentMap::Made(map) => map,
        }
    }

    /// The map; a copy of one that is borrowed.
    fn into_map(self, alloc: Global) -> Result<HeadMap, Memory>
        ensures { IfOk result (λ map. read_map map ≡ read_map (map_in self.entry)) }
    {
        match self {
            LentMap::Borrowed(map) => map.copy(alloc),
            LentMap::Made(map) => Ok(map),
        }
    }
}

impl<'a> LentLink<'a> {
    /// The link, followed by another one, which has an image for each constant in this one's images.
    pub(crate) fn followed_by(
        &self,
        alloc: Global,
        next: &LentLink<'a>,
    ) -> Result<LentLink<'a>, Memory>
        requires { unmapped_map (read_lent next.now).map (read_lent self.now).map ≡ None }
        ensures { IfOk result (λ link. read_lent link ≡ followed_by (read_lent self.now) (read_lent next.now)) }
    {
        let map = composed(alloc, self.map.get(), next.map.get())?;
        Ok(LentLink {
            domain: self.domain,
            codomain: next.codomain,
            map: LentMap::Made(map),
        })
    }

    /// The link with parts of its own.
    pub(crate) fn into_link(self, alloc: Global) -> Result<Link, Memory>
        ensures { IfOk result (λ link. read_link link ≡ read_lent self.entry) }
    {
        let LentLink {
            domain,
            codomain,
            map,
        } = self;
        let map = map.into_map(alloc)?;
        let Ok(domain) = domain.copy(alloc) else {
            drop(map);
            return Err(Memory);
        };
        let Ok(codomain) = codomain.copy(alloc) else {
            drop(map);
            drop(domain);
            return Err(Memory);
        };
        Ok(Link {
            domain,
            codomain,
            map,
        })
    }
}

/// The first map, followed by the second, which has an image for each constant in the first one's images.
fn composed(alloc: Global, first: &HeadMap, second: &HeadMap) -> Result<HeadMap, Memory>
    requires { unmapped_map (read_map second.now) (read_map first.now) ≡ None }
    ensures { IfOk result (λ map. read_map map ≡ meant.compose (read_map first.now) (read_map second.now)) }
{
    match compose(alloc, first, second) {
        Ok(map) => Ok(map),
        Err(TranslateFault::Memory) => Err(Memory),
        Err(TranslateFault::Unmapped(_)) => unreachable!(),
    }
}

//! The names of one text, each made once.
ghost use Rattle.std.specs.Prelude.{◌≡◌, IfOk, IfSome, IsTrue};
ghost use Rattle.name_meaning.specs.Identifiers.{is_identifier};

use lf_terms::{Memory, Name, NameFault};
use std::alloc::Global;
use std::mem;

/// How many places are tried for a name. One that finds none of them free is made anew each time, so that names which
/// are chosen to meet there cost memory and no time.
const TRIES: u32 = 16;

/// How many places the first table has.
const FIRST: usize = 64;

/// A place of the table: the number of a name, counted from 1, and the hash of its bytes. The number 0 is that of no
/// name.
#[derive(Clone, Copy, Debug)]
struct Place {
    hash: u32,
    number: u32,
}

/// Names, and a table that finds them by their bytes.
#[derive(Debug, Drop)]
pub struct NameTable {
    alloc: Global,
    names: Vec<Name>,
    places: Vec<Place>,
}

impl NameTable {
    /// No names. It takes no memory.
    pub fn new(alloc: Global) -> Self {
        NameTable {
            alloc,
            names: Vec::new(alloc),
            places: Vec::new(alloc),
        }
    }

    /// The name with the bytes of a text, which is made where there is none.
    pub fn name(&mut self, text: &str) -> Result<Name, Memory>
        requires { IsTrue (is_identifier text.now) }
        ensures { IfOk result (λ name. name ≡ text.now) }
    {
        if let Some(name) = Name::short(text) {
            return Ok(name);
        }
        let hash = hash(text.as_bytes());
        if let Some(name) = self.find(text, hash) {
            return name.copy(self.alloc);
        }
        let name = made(self.alloc, text)?;
        let copy = name.copy(self.alloc)?;
        self.keep(copy, hash)?;
        Ok(name)
    }

    /// The name with the bytes of a text, if the table has it.
    fn find(&self, text: &str, hash: u32) -> Option<&Name>
        ensures { IfSome result (λ name. name.now ≡ text.now) }
    {
        for step in 0..TRIES {
            let place = self.places.get(index(hash, step, self.places.len()))?;
            if place.number == 0 {
                return None;
            }
            if place.hash == hash {
                let name = self.names.get(place.number as usize - 1)?;
                if name.as_str() == text {
                    return Some(name);
                }
            }
        }
        None
    }

    /// Keeps a name that the table does not have, where one of its places is free.
    fn keep(&mut self, name: Name, hash: u32) -> Result<(), Memory> {
        if self.names.len() >= self.places.len() / 2 {
            self.grow()?;
        }
        self.names.push(name)?;
        if let Ok(number) = u32::try_from(self.names.len()) {
            put(&mut self.places, Place { hash, number });
        }
        Ok(())
    }

    /// Twice as many places.
    fn grow(&mut self) -> Result<(), Memory> {
        let count = self.places.len().saturating_mul(2).max(FIRST);
        let places = free(self.alloc, count)?;
        let old = mem::replace(&mut self.places, places);
        for place in old {
            put(&mut self.places, place);
        }
        Ok(())
    }
}

/// So many places without names.
fn free(alloc: Global, count: usize) -> Result<Vec<Place>, Memory> {
    let mut places = Vec::with_capacity(alloc, count)?;
    for _ in 0..count {
        places.push(Place { hash: 0, number: 0 })?;
    }
    Ok(places)
}

/// Puts a name into the first of its places that is free, if there is one.
fn put(places: &mut Vec<Place>, new: Place) {
    let count = places.len();
    for step in 0..TRIES {
        if let Some(place) = places.get_mut(index(new.hash, step, count)) {
            if place.number == 0 {
                *place = new;
                return;
            }
        }
    }
}

/// Where the place of a hash lies, so many steps on, in a table of so many places, a power of two.
fn index(hash: u32, step: u32, count: usize) -> usize {
    hash.wrapping_add(step) as usize & count.saturating_sub(1)
}

/// A number that the bytes tell.
fn hash(bytes: &[u8]) -> u32 {
    let mut hash: u64 = 0xcbf2_9ce4_8422_2325;
    for byte in bytes {
        hash = (hash ^ *byte as u64).wrapping_mul(0x100_0000_01b3);
    }
    (hash >> 32) as u32 ^ (hash & 0xffff_ffff) as u32
}

fn made(alloc: Global, text: &str) -> Result<Name, Memory>
    requires { IsTrue (is_identifier text.now) }
    ensures { IfOk result (λ name. name ≡ text.now) }
{
    match Name::new(alloc, text) {
        Ok(name) => Ok(name),
        Err(NameFault::Memory) => Err(Memory),
        Err(NameFault::NotAName) => unreachable!(),
    }
}

//! Flat signatures: declarations in order, in a table that finds them by their names, and one of their paths where they are of several theories.
ghost use Rattle.std.specs.Prelude.{◌≡◌, ◌↔◌, ◌≤◌, ◌-◌, ◌∷◌, ◌++◌, [], length, slice_get, take, IfErr, IfOk, IfSome, IsErrOf, IsSome, None, Some, MatchOption, OnErr, OnOk, IsNone, if◌then◌else◌, map, true};
ghost use Rattle.std.specs.List.{find};
ghost use Rattle.std.specs.Map.{lookup};
ghost use Rattle.std.specs.Option.{option_copied, option_map};
ghost use Rattle.name_meaning.specs.Names as names;
ghost use Rattle.lf_meaning.specs.Signatures.{declaration_of, Declaration};
ghost use Rattle.library_meaning.specs.Words.{identity_map, identity_mapping, own_value};
ghost use Rattle.term_trees.specs.Readings.{read_constant, read_declaration, read_image, read_map, read_signature, read_value};
ghost use Rattle.lf_terms.specs.Identities.{AreIdentity};
ghost use Rattle.lf_terms.specs.Tables.{declared, first_with_path, handed_back, place_of, same_path, with_place, AreOfOneTheory, HasDistinctNames, HasFirstPlaces, IsOfFirst};
ghost use Rattle.lf_terms.specs.declared.flat_sig.PushFault.TheVariants.{Twice};

use crate::map_part::MapPart;
use crate::named::{ByName, Named, found_declaration};
use crate::path_names::{NamesIn, PathNames};
use base_types::{Arc, Memory, Name, Path, QName};
use indexmap::{IndexMap, IndexSet};
use std::alloc::Global;
use std::marker::Model;
use term_trees::{FlatDecl, Image, Value};

/// Declarations of different names, seen as the list of them, in the order in which they came.
#[derive(Debug, Drop)]
pub struct FlatSig {
    /// Each declaration, found by its own name.
    decls: IndexSet<Named>,
    by_path: ByPath,
    /// The images that the identity gives to these declarations, if they were made since the last of them came or went.
    identity: Option<Arc<MapPart>>,
}

/// How the first declaration of a path is found.
#[derive(Debug, Drop)]
enum ByPath {
    /// By its name, since all declarations are of the theory of the first one.
    OneTheory,
    /// By a table of the index of the first declaration of each path.
    Table(IndexMap<Path, usize>),
}

impl Model for FlatSig {
    ghost use Rattle.std.specs.Prelude.{List};
    ghost use Rattle.std.specs.Coded.{codes};
    ghost use Rattle.term_trees.specs.declared.flat_decl.FlatDecl.{FlatDecl};
    ghost use Rattle.term_trees.specs.contracts.flat_decl.FlatDecl as e;
    ghost use Rattle.lf_terms.specs.Tables.{FindsPaths};
    ghost use Rattle.lf_terms.specs.Identities.{AreIdentity};

    ghost Value = { List FlatDecl };

    ghost coded = { Prim.hlevel (codes, e.the_row.coded) };

    ghost view = { λ s. s.decls.keys };

    ghost invariant = { λ s. FindsPaths s.by_path s.decls.keys × AreIdentity s.identity s.decls.keys };
}

/// Why a declaration was not added. It comes back with the reason.
#[derive(Debug, Drop)]
pub enum PushFault {
    /// Its name is declared already.
    Twice(FlatDecl),
    /// Want of memory.
    Memory(FlatDecl),
}

impl FlatSig {
    /// No declarations. It takes no memory.
    pub fn new(alloc: Global) -> FlatSig
        ensures { result ≡ [] }
    {
        FlatSig {
            decls: IndexSet::new(alloc),
            by_path: ByPath::OneTheory,
            identity: None,
        }
    }

    /// Makes room for so many more declarations, so that their table grows at once. It may find no memory.
    pub fn reserve(&mut self, additional: usize) -> Result<(), Memory>
        ensures { self.new ≡ self.old }
    {
        Ok(self.decls.reserve(additional)?)
    }

    /// Adds a declaration at the end, or hands it back: `Twice` exactly where its name is declared already, `Memory`
    /// for want of memory.
    pub fn push(&mut self, decl: FlatDecl) -> Result<(), PushFault>
        ensures ok { OnOk result (self.new ≡ self.old ++ decl ∷ []) }
        ensures err { OnErr result (self.new ≡ self.old) }
        ensures twice { IsErrOf result (Twice decl) ↔ IsSome (declared self.old decl.name) }
        ensures back { IfErr result (λ fault. handed_back fault ≡ decl) }
    {
        if self.get(&decl.name).is_some() {
            return Err(PushFault::Twice(decl));
        }
        match self.push_new(decl) {
            Ok(()) => Ok(()),
            Err(decl) => Err(PushFault::Memory(decl)),
        }
    }

    /// Adds a declaration of a new name at the end, or hands it back for want of memory. It hashes the name once.
    pub fn push_new(&mut self, decl: FlatDecl) -> Result<(), FlatDecl>
        requires { declared self.old decl.name ≡ None }
        ensures ok { OnOk result (self.new ≡ self.old ++ decl ∷ []) }
        ensures err { OnErr result (self.new ≡ self.old) }
        ensures back { IfErr result (λ back. back ≡ decl) }
    {
        self.identity = None;
        match &mut self.by_path {
            ByPath::OneTheory => {
                if is_of_theory(&self.decls, &decl.name.theory) {
                    return insert(&mut self.decls, decl);
                }
                self.append_of_other_theory(decl)
            }
            ByPath::Table(places) => insert_in_both(&mut self.decls, places, decl),
        }
    }

    /// Adds the first declaration that is of another theory than those before it, whose paths come into a table.
    fn append_of_other_theory(&mut self, decl: FlatDecl) -> Result<(), FlatDecl>
        requires { declared self.old decl.name ≡ None }
        ensures ok { OnOk result (self.new ≡ self.old ++ decl ∷ []) }
        ensures err { OnErr result (self.new ≡ self.old) }
        ensures back { IfErr result (λ back. back ≡ decl) }
    {
        self.identity = None;
        let Ok(mut places) = first_places(&self.decls) else {
            return Err(decl);
        };
        insert_in_both(&mut self.decls, &mut places, decl)?;
        self.by_path = ByPath::Table(places);
        Ok(())
    }

    /// The declaration of a name. None exactly where the name is not there.
    pub fn get(&self, name: &QName) -> Option<&FlatDecl>
        ensures declaration { option_copied result ≡ declared self.now name.now }
        ensures meaning { option_map (λ d. read_declaration d.now) result ≡ declaration_of (read_signature self.now) (read_constant name.now) }
    {
        found_declaration(self.decls.get(ByName(name)))
    }

    /// The index of the declaration of a name, counted from 0. None exactly where the name is not there. It takes
    /// expected constant time, by a hash table.
    pub fn place(&self, name: &QName) -> Option<usize>
        ensures index { result ≡ place_of self.now name.now }
        ensures meaning { MatchOption result (declaration_of (read_signature self.now) (read_constant name.now) ≡ None) (λ i. slice_get (read_signature self.now) i ≡ declaration_of (read_signature self.now) (read_constant name.now)) }
    {
        self.decls.get_index_of(ByName(name))
    }

    /// The declaration at an index. None exactly where the index is past the end.
    pub fn at(&self, i: usize) -> Option<&FlatDecl>
        ensures item { option_copied result ≡ slice_get self.now i }
        ensures none { IsNone result ↔ (length self.now ≤ i) }
        ensures meaning { option_map (λ d. read_declaration d.now) result ≡ slice_get (read_signature self.now) i }
    {
        found_declaration(self.decls.get_index(i))
    }

    /// The first declaration of a path. None exactly where there is none. It takes expected constant time, by a hash
    /// table, and no memory.
    pub fn first_at(&self, path: &[Name]) -> Option<&FlatDecl>
        ensures declaration { option_copied result ≡ first_with_path self.now path.now }
        ensures meaning { option_map (λ d. read_declaration d.now) result ≡ find (λ (d : Declaration). same_path d.name.path path.now) (read_signature self.now) }
    {
        match &self.by_path {
            ByPath::OneTheory => self.own_at(path),
            ByPath::Table(places) => match places.get(PathNames(path)) {
                Some(index) => self.at(*index),
                None => None,
            },
        }
    }

    /// The declaration of a path in the theory of the first declaration.
    fn own_at(&self, path: &[Name]) -> Option<&FlatDecl>
        ensures { AreOfOneTheory self.now → option_copied result ≡ first_with_path self.now path.now }
    {
        let first = self.at(0)?;
        found_declaration(
            self.decls.get(NamesIn {
                theory: &first.name.theory,
                names: path,
            }),
        )
    }

    /// Keeps the first `len` declarations, and lets the others go. It takes no memory.
    pub fn truncate(&mut self, len: usize)
        ensures { self.new ≡ take len self.old }
    {
        while self.len() > len {
            self.drop_last();
        }
    }

    /// Lets the last declaration go, if there is one.
    fn drop_last(&mut self)
        ensures { self.new ≡ take (length self.old - 1) self.old }
    {
        self.identity = None;
        if let Some(named) = self.decls.pop() {
            let decl = named.into_declaration();
            if let ByPath::Table(places) = &mut self.by_path {
                leave(places, &decl.name.path, self.decls.len());
            }
            drop(decl);
        }
    }

    /// Makes the images that the identity gives to these declarations, so that maps can share them; where the declarations are of
    /// more than one theory, none. They are let go when a declaration comes or goes.
    pub fn finish(&mut self, alloc: Global) -> Result<(), Memory>
        ensures { self.new ≡ self.old }
    {
        let made = self.identity_part(alloc)?;
        self.identity = made;
        Ok(())
    }

    /// The images that the identity gives to these declarations, if they were made.
    pub fn identity(&self) -> Option<&Arc<MapPart>>
        ensures { IfSome result (λ part. read_map part.now ≡ identity_map (read_signature self.now)) }
    {
        self.identity.as_ref()
    }

    /// These images, if the declarations are of one theory.
    fn identity_part(&self, alloc: Global) -> Result<Option<Arc<MapPart>>, Memory>
        ensures { IfOk result (λ made. AreIdentity made self.now) }
    {
        let Some(first) = self.at(0) else {
            return Ok(None);
        };
        let mut part = MapPart::with_capacity(alloc, &first.name.theory, self.len())?;
        for i in 0..self.len() {
            if let Some(decl) = self.at(i) {
                let added = push_own(alloc, &mut part, decl)?;
                if !added {
                    return Ok(None);
                }
            }
        }
        Ok(Some(Arc::new(alloc, part)?))
    }

    /// The number of declarations.
    pub fn len(&self) -> usize
        ensures len { result ≡ length self.now }
        ensures distinct { HasDistinctNames self.now }
    {
        self.decls.len()
    }
}

/// Whether the first declaration, if there is one, is of this theory.
fn is_of_theory(decls: &IndexSet<Named>, theory: &Name) -> bool
    ensures { result ≡ true → IsOfFirst theory.now (map (λ d. d.name) decls.now.keys) }
{
    match decls.get_index(0) {
        Some(first) => first.declaration().name.theory == *theory,
        None => true,
    }
}

/// The index of the first declaration of each path.
fn first_places(decls: &IndexSet<Named>) -> Result<IndexMap<Path, usize>, Memory>
    ensures { IfOk result (λ places. HasFirstPlaces places.entries decls.now.keys) }
{
    let mut places = IndexMap::new(*decls.allocator());
    for index in 0..decls.len() {
        if let Some(named) = decls.get_index(index) {
            note_place(&mut places, &named.declaration().name.path, index)?;
        }
    }
    Ok(places)
}

/// Adds the index of a declaration under a copy of its path, unless the path has one.
fn note_place(places: &mut IndexMap<Path, usize>, path: &Path, index: usize) -> Result<(), Memory>
    ensures { OnOk result (places.new.entries ≡ with_place places.old.entries path.now index) }
{
    if places.contains_key(path) {
        return Ok(());
    }
    let key = path.copy(*places.allocator())?;
    places.insert(key, index)?;
    Ok(())
}

/// Adds a declaration of a new name, and its index under a copy of its path, unless that has one; or hands it back for want of memory.
fn insert_in_both(
    decls: &mut IndexSet<Named>,
    places: &mut IndexMap<Path, usize>,
    decl: FlatDecl,
) -> Result<(), FlatDecl>
    requires name { declared decls.old.keys decl.name ≡ None }
    requires tables { HasFirstPlaces places.old.entries decls.old.keys }
    ensures ok { OnOk result (decls.new.keys ≡ decls.old.keys ++ decl ∷ []) }
    ensures err { OnErr result (decls.new.keys ≡ decls.old.keys) }
    ensures tables { HasFirstPlaces places.new.entries decls.new.keys }
    ensures back { IfErr result (λ back. back ≡ decl) }
{
    if places.contains_key(&decl.name.path) {
        insert(decls, decl)
    } else {
        insert_first(decls, places, decl)
    }
}

/// Adds a declaration of a new name, or hands it back for want of memory.
fn insert(decls: &mut IndexSet<Named>, decl: FlatDecl) -> Result<(), FlatDecl>
    requires { declared decls.old.keys decl.name ≡ None }
    ensures ok { OnOk result (decls.new.keys ≡ decls.old.keys ++ decl ∷ []) }
    ensures err { OnErr result (decls.new.keys ≡ decls.old.keys) }
    ensures back { IfErr result (λ back. back ≡ decl) }
{
    match decls.insert(Named::new(decl)) {
        Ok(_) => Ok(()),
        Err(failed) => Err(failed.value.into_declaration()),
    }
}

/// Adds a declaration of a new path as `insert` does, and its index under a copy of the path.
fn insert_first(
    decls: &mut IndexSet<Named>,
    by_path: &mut IndexMap<Path, usize>,
    decl: FlatDecl,
) -> Result<(), FlatDecl>
    requires name { declared decls.old.keys decl.name ≡ None }
    requires path { lookup (same_path decl.name.path) by_path.old.entries ≡ None }
    ensures ok { OnOk result (decls.new.keys ≡ decls.old.keys ++ decl ∷ []) }
    ensures ok_path { OnOk result (by_path.new.entries ≡ by_path.old.entries ++ (decl.name.path, length decls.old.keys) ∷ []) }
    ensures err { OnErr result (decls.new.keys ≡ decls.old.keys) }
    ensures err_path { OnErr result (by_path.new.entries ≡ by_path.old.entries) }
    ensures back { IfErr result (λ back. back ≡ decl) }
{
    let alloc = *decls.allocator();
    let Ok(path) = decl.name.path.copy(alloc) else {
        return Err(decl);
    };
    let Ok(()) = by_path.reserve(1) else {
        return Err(decl);
    };
    let index = decls.len();
    insert(decls, decl)?;
    let _ = by_path.insert(path, index);
    Ok(())
}

/// Takes a path out of the table, if it stands there with this index.
fn leave(by_path: &mut IndexMap<Path, usize>, path: &Path, index: usize)
    ensures gone { lookup (same_path path.now) by_path.old.entries ≡ Some index → (other : names.Path) → lookup (same_path other) by_path.new.entries ≡ (if same_path path.now other then None else lookup (same_path other) by_path.old.entries) }
    ensures stays { (lookup (same_path path.now) by_path.old.entries ≡ Some index → ⊥) → by_path.new.entries ≡ by_path.old.entries }
{
    if by_path.get(path).copied() == Some(index) {
        by_path.swap_remove(path);
    }
}

/// Adds a declared constant with the image that the identity gives to it, and says so, where it is of the part's theory.
fn push_own(alloc: Global, part: &mut MapPart, decl: &FlatDecl) -> Result<bool, Memory>
    ensures { IfOk result (λ added. added ≡ true → read_map part.new ≡ read_map part.old ++ identity_mapping (read_declaration decl.now) ∷ []) }
{
    let name = decl.name.copy(alloc)?;
    let image = own_image(alloc, decl)?;
    part.push(name, image)
}

/// The image that the identity gives to a declared constant.
fn own_image(alloc: Global, decl: &FlatDecl) -> Result<Image, Memory>
    ensures { IfOk result (λ image. read_image image ≡ (identity_mapping (read_declaration decl.now)).image) }
{
    let value = own_value(alloc, decl)?;
    let Ok(class) = decl.class.copy(alloc) else {
        drop(value);
        return Err(Memory);
    };
    Ok(Image { class, value })
}

/// The value that the identity gives to a declared constant.
fn own_value(alloc: Global, decl: &FlatDecl) -> Result<Value, Memory>
    ensures { IfOk result (λ value. read_value value ≡ own_value (read_declaration decl.now) (read_declaration decl.now).value) }
{
    match &decl.value {
        Some(value) => value.copy(alloc),
        None => Ok(Value::Same(decl.name.copy(alloc)?)),
    }
}

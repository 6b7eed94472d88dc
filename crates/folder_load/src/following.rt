//! The modules of a file, behind those that were loaded before it.
ghost use Rattle.std.specs.Prelude.{◌≡◌, ◌+◌, ◌<◌, ◌≤◌, ◌^◌, ◌∷◌, ◌++◌, ◌||◌, [], ℕ, List, None, map, length, is_some, IfOk, IfErr, OnOk};
ghost use Rattle.std.specs.Option.{option_map};
ghost use Rattle.name_meaning.specs.Limits.{total_limit};
ghost use Rattle.name_meaning.specs.Rows.{row_of, with_row};
ghost use Rattle.edit_log_meaning.specs.Log as logs;
ghost use Rattle.edit_log_meaning.specs.Log.{library_of, is_present};
ghost use Rattle.run_meaning.specs.Files.{name_of, text_in, origin_of, piece_word};
ghost use Rattle.edit_log.specs.Readings.{read_edit};
ghost use Rattle.twelf_reader.specs.Division.{read_piece};
ghost use Rattle.folder_load.specs.Shown.{file_of, place_in, shown_origin, shown_word, shown_piece_fault};
ghost use Rattle.folder_load.specs.Ahead.{ahead, put_of, word_of, word_by, PieceStands, Follows, IsPieceDamage};
ghost use Rattle.folder_load.specs.declared.following.Damage.TheVariants.{Memory as WantOfMemory};

use edit_log::{Edit, Log};
use lf_terms::{Arc, Bytes, Memory, Name};
use mmt_syntax::{FileFault, FileWord, Origin, Origins, place_of};
use name_table::NameTable;
use std::alloc::Global;
use twelf_reader::Piece;

/// The greatest length of a text.
const TEXT_LIMIT: usize = 1_048_576;
/// The greatest number of modules in a library.
const MODULE_LIMIT: usize = 4_096;
/// The greatest sum of the lengths of all texts.
const TOTAL_LIMIT: usize = 268_435_456;

/// Why a file is not loaded.
#[derive(Drop)]
pub(crate) enum Damage {
    Fault(FileFault),
    Memory,
}

impl From<Memory> for Damage {
    ghost from_gives = { λ _ e. e ≡ WantOfMemory };

    fn from(_: Memory) -> Self {
        Damage::Memory
    }
}

/// The modules that were loaded, each under a name of its own, and the sum of the lengths of their texts.
#[derive(Drop)]
pub(crate) struct Modules {
    pub(crate) log: Log,
    pub(crate) size: usize,
}

/// The modules of a file so far: what puts them, where they came from, their names, and the sum of the lengths of their
/// texts. They are kept apart from the log until all of the file has passed.
#[derive(Drop)]
pub(crate) struct Following {
    pub(crate) edits: Vec<Edit>,
    pub(crate) origins: Origins,
    pub(crate) names: NameTable<()>,
    pub(crate) size: usize,
}

/// The name of a module of a file.
fn name_in(piece: &Piece) -> &Name
    ensures { result.now ≡ name_of (read_piece piece.now) }
{
    match piece.name.path.as_slice() {
        [name, ..] => name,
        [] => unreachable!(),
    }
}

/// Why a module of so many bytes is refused: its name is there, it is too long, there are as many modules as may be, or
/// the sum of the lengths of all texts would be too great.
fn refused(is_there: bool, bytes: usize, modules: usize, size: usize) -> Option<FileWord>
    requires { size ≤ total_limit }
    ensures { result ≡ option_map shown_word (word_by is_there bytes modules size) }
{
    if is_there {
        return Some(FileWord::DuplicateName);
    }
    if bytes > TEXT_LIMIT {
        return Some(FileWord::TooLong);
    }
    if modules >= MODULE_LIMIT {
        return Some(FileWord::TooMany);
    }
    if size + bytes > TOTAL_LIMIT {
        return Some(FileWord::Full);
    }
    None
}

/// The bytes of a text, copied.
fn copied(alloc: Global, bytes: &[u8]) -> Result<Bytes, Memory>
    ensures { IfOk result (λ copy. copy ≡ bytes.now) }
{
    let mut copy = Bytes::new(alloc);
    copy.extend(bytes)?;
    Ok(copy)
}

/// Where a module came from.
fn origin(alloc: Global, file: &str, bytes: &[u8], piece: &Piece) -> Result<Origin, Memory>
    requires small { length bytes.now ≤ 2 ^ 26 }
    requires stands { PieceStands (length bytes.now) (read_piece piece.now) }
    ensures { IfOk result (λ origin. origin ≡ shown_origin (origin_of (file_of file.now bytes.now) (read_piece piece.now))) }
{
    Ok(Origin {
        name: name_in(piece).copy(alloc)?,
        file: copied(alloc, file.as_bytes())?,
        first: place_of(bytes, piece.span.from),
    })
}

/// The fault of a file whose module is refused. It stands at the module's name.
fn fault(
    alloc: Global,
    file: &str,
    bytes: &[u8],
    piece: &Piece,
    word: FileWord,
) -> Result<FileFault, Memory>
    requires small { length bytes.now ≤ 2 ^ 26 }
    requires stands { PieceStands (length bytes.now) (read_piece piece.now) }
    ensures { IfOk result (λ fault. fault ≡ shown_piece_fault (file_of file.now bytes.now) (read_piece piece.now) word) }
{
    Ok(FileFault {
        file: copied(alloc, file.as_bytes())?,
        place: place_of(bytes, piece.name.span.from),
        word,
        about: Some(name_in(piece).copy(alloc)?),
    })
}

impl Following {
    /// No modules.
    pub(crate) fn new(alloc: Global) -> Self
        ensures edits { result.edits.items ≡ [] }
        ensures origins { result.origins ≡ [] }
        ensures names { result.names ≡ [] }
        ensures size { result.size ≡ 0 }
    {
        Following {
            edits: Vec::new(alloc),
            origins: Origins::new(alloc),
            names: NameTable::new(alloc),
            size: 0,
        }
    }

    /// Whether a name is loaded or stands earlier in the file.
    fn has(&self, modules: &Modules, name: &Name) -> bool
        ensures { result ≡ (is_present (library_of modules.now.log) name.now || is_some (row_of self.now.names name.now)) }
    {
        modules.log.text(name).is_some() || self.names.get(name).is_some()
    }

    /// Why a module of so many bytes is refused, if it is.
    fn word(&self, modules: &Modules, name: &Name, bytes: usize) -> Option<FileWord>
        requires { Follows modules.now self.now }
        ensures { (text : List ℕ) → length text ≡ bytes → result ≡ option_map shown_word (word_of (ahead modules.now self.now) name.now text) }
    {
        let count = modules.log.version() as usize + self.edits.len();
        refused(
            self.has(modules, name),
            bytes,
            count,
            modules.size + self.size,
        )
    }

    /// Adds a module.
    fn put(&mut self, alloc: Global, name: &Name, text: &[u8]) -> Result<(), Memory>
        requires { self.old.size + length text.now < 2 ^ 64 }
        ensures edits { OnOk result (map read_edit self.new.edits.items ≡ map read_edit self.old.edits.items ++ logs.Put name.now text.now ∷ []) }
        ensures names { OnOk result (self.new.names ≡ with_row name.now tt self.old.names) }
        ensures size { OnOk result (self.new.size ≡ self.old.size + length text.now) }
        ensures origins { self.new.origins ≡ self.old.origins }
    {
        let bytes = copied(alloc, text)?;
        self.edits.push(Edit::Put {
            name: name.copy(alloc)?,
            text: Arc::new(alloc, bytes)?,
        })?;
        if self.names.insert(name.copy(alloc)?, ()).is_err() {
            return Err(Memory);
        }
        self.size += text.len();
        Ok(())
    }

    /// Adds the next module of the file, unless it is refused.
    pub(crate) fn add(
        &mut self,
        alloc: Global,
        modules: &Modules,
        file: &str,
        bytes: &[u8],
        piece: &Piece,
    ) -> Result<(), Damage>
        requires small { length bytes.now ≤ 2 ^ 26 }
        requires stands { PieceStands (length bytes.now) (read_piece piece.now) }
        requires follows { Follows modules.now self.old }
        ensures passes { OnOk result (piece_word (ahead modules.now self.old) (file_of file.now bytes.now) (read_piece piece.now) ≡ None) }
        ensures edits { OnOk result (map read_edit self.new.edits.items ≡ map read_edit self.old.edits.items ++ put_of (file_of file.now bytes.now) (read_piece piece.now) ∷ []) }
        ensures origins { OnOk result (self.new.origins ≡ self.old.origins ++ shown_origin (origin_of (file_of file.now bytes.now) (read_piece piece.now)) ∷ []) }
        ensures follows { OnOk result (Follows modules.now self.new) }
        ensures damage { IfErr result (IsPieceDamage (ahead modules.now self.old) (file_of file.now bytes.now) (read_piece piece.now)) }
    {
        let name = name_in(piece);
        let text = &bytes[piece.span.from as usize..piece.span.to as usize];
        if let Some(word) = self.word(modules, name, text.len()) {
            return Err(Damage::Fault(fault(alloc, file, bytes, piece, word)?));
        }
        let origin = origin(alloc, file, bytes, piece)?;
        self.put(alloc, name, text)?;
        self.origins.add(origin)?;
        Ok(())
    }
}

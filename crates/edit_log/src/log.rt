//! The log of the edits made.
ghost use Rattle.std.specs.Prelude.{◌≡◌, ◌∷◌, ◌++◌, ◌≤◌, [], length, suc, ◌≢◌, Err, IfOk, IfSome, OnErr, OnOk};
ghost use Rattle.std.specs.Option.{option_copied, option_map};
ghost use Rattle.edit_log_meaning.specs.Log as logs;
ghost use Rattle.edit_log_meaning.specs.Log.{library_of, text_of, version_of, stamp_of, edit_at, name_at};
ghost use Rattle.name_meaning.specs.Limits.{text_limit};
ghost use Rattle.edit_log_meaning.specs.Append.{Made, append_answer, appended, size_of, made_unless_full, IsWithinLimits};
ghost use Rattle.edit_log.specs.Readings.{read_edit, IsAnswer};
ghost use Rattle.edit_log.specs.declared.answers.EditFault.TheVariants.{Memory as WantOfMemory};

use crate::changes::change_text;
use crate::{Edit, EditFault, Edited};
use indexmap::IndexMap;
use lf_terms::{Arc, Bytes, Memory, Name};
use name_table::NameTable;
use std::alloc::Global;
use std::marker::Model;

/// The greatest length of a text.
const TEXT_LIMIT: usize = 1_048_576;
/// The greatest number of modules in a library.
const MODULE_LIMIT: usize = 4_096;
/// The greatest number of edits made.
const EDIT_LIMIT: usize = 65_536;
/// The greatest sum of the lengths of all texts ever put.
const TOTAL_LIMIT: usize = 268_435_456;

/// The edits made, seen as the list of them. It keeps to the limits.
#[derive(Drop)]
pub struct Log {
    edits: Vec<Edit>,
    /// The library that the edits leave. The texts are shared with the edits.
    texts: NameTable<Arc<Bytes>>,
    /// The version of the last edit of each name that was edited.
    stamps: IndexMap<Name, u32>,
    /// The sum of the lengths of all texts that were put.
    size: usize,
}

impl Model for Log {
    ghost use Rattle.std.specs.Prelude.{List, map};
    ghost use Rattle.edit_log_meaning.specs.Log.{Edit};
    ghost use Rattle.edit_log.specs.Readings.{read_edit};

    ghost Value = { List Edit };

    ghost use Rattle.edit_log.specs.Keeping.{IsKept};

    ghost view = { λ l. map read_edit l.edits.items };

    ghost invariant = { λ l. IsKept l };
}

impl Log {
    /// No edits: version 0, an empty library. It takes no memory.
    pub fn new(alloc: Global) -> Log
        ensures { result ≡ [] }
    {
        Log {
            edits: Vec::new(alloc),
            texts: NameTable::new(alloc),
            stamps: IndexMap::new(alloc),
            size: 0,
        }
    }

    /// Makes an edit, unless one of these tests, in this order, holds. `TooLong`: a put text is longer than 2^20 bytes.
    /// `Same`: the library has that name with equal bytes. `Absent`: the name of a drop is not there. `TooMany`: the name
    /// of a put is new, and the library has 4,096 names. `Full`: 65,536 edits were made, or the text would make the sum of
    /// all texts ever put pass 2^28 bytes. The tests take no memory, so that want of memory may come in place of `Made`
    /// alone. The log changes at `Made` alone.
    pub fn append(&mut self, alloc: Global, edit: Edit) -> Result<Edited, EditFault>
        ensures answer { IsAnswer result (append_answer self.old (read_edit edit)) }
        ensures log { OnOk result (self.new ≡ appended self.old (read_edit edit)) }
        ensures unchanged { OnErr result (self.new ≡ self.old) }
    {
        let answer = self.answer(&edit)?;
        if let Edited::Made(_) = answer {
            self.make(alloc, edit)?;
        }
        Ok(answer)
    }

    /// The version, which is the number of edits made.
    pub fn version(&self) -> u32
        ensures version { result ≡ version_of self.now }
        ensures limits { IsWithinLimits self.now }
    {
        self.edits.len() as u32
    }

    /// The version of the name's last edit, else 0.
    pub fn stamp(&self, name: &Name) -> u32
        ensures { result ≡ stamp_of self.now name.now }
    {
        match self.stamps.get(name) {
            Some(stamp) => *stamp,
            None => 0,
        }
    }

    /// The text of a name. None exactly where the library lacks the name. A text has at most 2^20 bytes.
    pub fn text(&self, name: &Name) -> Option<&[u8]>
        ensures text { option_copied result ≡ text_of (library_of self.now) name.now }
        ensures short { IfSome result (λ text. length text.now ≤ text_limit) }
    {
        match self.texts.get(name) {
            Some(text) => Some(text.get().as_slice()),
            None => None,
        }
    }

    /// The text of a name, over the same bytes. None exactly where the library lacks the name. A text has at most 2^20
    /// bytes.
    pub fn share_text(&self, name: &Name) -> Result<Option<Arc<Bytes>>, Memory>
        ensures text { IfOk result (λ text. text ≡ text_of (library_of self.now) name.now) }
        ensures short { IfOk result (λ text. IfSome text (λ bytes. length bytes ≤ text_limit)) }
    {
        match self.texts.get(name) {
            Some(text) => Ok(Some(text.share()?)),
            None => Ok(None),
        }
    }

    /// The edit that made a version. None exactly where there is none: at version 0, and past the log's version.
    pub fn entry(&self, version: u32) -> Option<&Edit>
        ensures { option_map (λ edit. read_edit edit.now) result ≡ edit_at self.now version }
    {
        if version == 0 {
            return None;
        }
        self.edits.get(version as usize - 1)
    }

    /// The i-th name of the library in byte order, counted from 0. None exactly where there are no more names.
    pub fn name_at(&self, i: usize) -> Option<&Name>
        ensures { option_copied result ≡ name_at self.now i }
    {
        match self.texts.at(i) {
            Some((name, _)) => Some(name),
            None => None,
        }
    }

    /// What `append` answers to an edit where memory suffices, by the tests in their order. It takes no memory, and never answers
    /// want of it.
    pub fn answer(&self, edit: &Edit) -> Result<Edited, EditFault>
        ensures answer { IsAnswer result (append_answer self.now (read_edit edit.now)) }
        ensures no_want { result ≢ Err WantOfMemory }
    {
        match edit {
            Edit::Put { name, text } => self.answer_to_put(name, text.get().as_slice()),
            Edit::Drop { name } => self.answer_to_drop(name),
        }
    }

    fn answer_to_put(&self, name: &Name, text: &[u8]) -> Result<Edited, EditFault>
        ensures answer { IsAnswer result (append_answer self.now (logs.Put name.now text.now)) }
        ensures no_want { result ≢ Err WantOfMemory }
    {
        if text.len() > TEXT_LIMIT {
            return Err(EditFault::TooLong);
        }
        match self.text(name) {
            Some(present) => {
                if present == text {
                    return Ok(Edited::Same(self.version()));
                }
            }
            None => {
                if self.texts.len() >= MODULE_LIMIT {
                    return Err(EditFault::TooMany);
                }
            }
        }
        self.made_unless_full(text.len())
    }

    fn answer_to_drop(&self, name: &Name) -> Result<Edited, EditFault>
        ensures answer { IsAnswer result (append_answer self.now (logs.Drop name.now)) }
        ensures no_want { result ≢ Err WantOfMemory }
    {
        if self.text(name).is_none() {
            return Ok(Edited::Absent(self.version()));
        }
        self.made_unless_full(0)
    }

    /// The answer to an edit that puts so many bytes and has passed the other tests.
    fn made_unless_full(&self, size: usize) -> Result<Edited, EditFault>
        ensures answer { (edit : logs.Edit) → size_of edit ≡ size → IsAnswer result (made_unless_full self.now edit) }
        ensures no_want { result ≢ Err WantOfMemory }
    {
        if self.edits.len() >= EDIT_LIMIT || size > TOTAL_LIMIT - self.size {
            return Err(EditFault::Full);
        }
        Ok(Edited::Made(self.version() + 1))
    }

    /// Makes an edit that has passed the tests, or changes nothing for want of memory.
    fn make(&mut self, alloc: Global, edit: Edit) -> Result<(), Memory>
        requires { append_answer self.old (read_edit edit) ≡ Made (suc (version_of self.old)) }
        ensures ok { OnOk result (self.new ≡ self.old ++ read_edit edit ∷ []) }
        ensures err { OnErr result (self.new ≡ self.old) }
    {
        self.edits.reserve(1)?;
        self.stamps.reserve(1)?;
        let name = edit.name().copy(alloc)?;
        change_text(alloc, &mut self.texts, &edit)?;
        let version = self.edits.len() as u32 + 1;
        let _ = self.stamps.insert(name, version);
        self.size += edit.size();
        self.edits.push_reserved(edit);
        Ok(())
    }
}

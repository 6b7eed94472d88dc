//! Edits of a library.
ghost use Rattle.std.specs.Prelude.{◌≡◌, IfOk};
ghost use Rattle.edit_log_meaning.specs.Log.{edited_name};
ghost use Rattle.edit_log_meaning.specs.Append.{size_of};
ghost use Rattle.edit_log.specs.Readings.{read_edit};

use lf_terms::{Arc, Bytes, Memory, Name};
use std::alloc::Global;

/// A text is put under a name, or a name is dropped.
#[derive(Debug, Drop)]
pub enum Edit {
    Put { name: Name, text: Arc<Bytes> },
    Drop { name: Name },
}

impl Edit {
    /// An equal edit, over the same text.
    pub fn copy(&self, alloc: Global) -> Result<Edit, Memory>
        ensures { IfOk result (λ edit. edit ≡ self.now) }
    {
        match self {
            Edit::Put { name, text } => Ok(Edit::Put {
                name: name.copy(alloc)?,
                text: text.share()?,
            }),
            Edit::Drop { name } => Ok(Edit::Drop {
                name: name.copy(alloc)?,
            }),
        }
    }

    /// The name that the edit is of.
    pub fn name(&self) -> &Name
        ensures { result.now ≡ edited_name (read_edit self.now) }
    {
        match self {
            Edit::Put { name, .. } => name,
            Edit::Drop { name } => name,
        }
    }

    /// How many bytes the edit puts.
    pub fn size(&self) -> usize
        ensures { result ≡ size_of (read_edit self.now) }
    {
        match self {
            Edit::Put { text, .. } => text.get().len(),
            Edit::Drop { .. } => 0,
        }
    }
}

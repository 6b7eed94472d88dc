//! The board, what can be asked of it at once, and its close.
ghost use Rattle.std.specs.Prelude.{◌≡◌, ◌++◌, [], true, length, IfOk};
ghost use Rattle.board_meaning.specs.Events.{log_of, version_after};
ghost use Rattle.board_meaning.specs.Standing.{installs};
ghost use Rattle.board_meaning.specs.Ready.{is_closed};
ghost use Rattle.board_meaning.specs.Machine.{CloseCall, after_call};
ghost use Rattle.board_meaning.specs.Legal.{IsLegal};

use crate::Event;
use crate::candidates::Candidates;
use crate::stage::Stage;
use crate::trail::{Trail, noted};
use edit_log::Log;
use lf_terms::Memory;
use module_graph::{Graph, Subject};
use name_table::NameTable;
use std::alloc::Global;
use std::marker::Model;

/// A board of verdicts on the modules of a library. It is seen as its history: the list of its entries.
#[derive(Drop)]
pub struct Board<S: Subject> {
    pub(crate) subject: S,
    pub(crate) log: Log,
    /// The direct dependencies of each module of the library.
    pub(crate) graph: Graph,
    /// How each module of the library stands.
    pub(crate) stages: NameTable<Stage<S::Answer>>,
    pub(crate) closed: bool,
    /// Where it is false, no module is ungrounded.
    pub(crate) rings: bool,
    /// At least how many claims are open.
    pub(crate) opened: u64,
    pub(crate) entries: u64,
    pub(crate) installed: u64,
    /// The modules that may be ready.
    pub(crate) candidates: Candidates,
    /// The entries themselves, of which only their number is kept.
    pub(crate) history: Trail,
}

impl<S: Subject> Model for Board<S> {
    ghost use Rattle.board_meaning.specs.Events.{History};

    ghost Value = { History };

    ghost use Rattle.verdict_board.specs.Keeping.{IsKept};

    ghost view = { λ b. b.history.entries };

    ghost invariant = { λ b. IsKept S.subject S.meaning b.history.entries b.log b.graph b.stages b.closed b.opened b.entries b.installed b.candidates b.rings };
}

impl<S: Subject> Board<S> {
    /// A board at version 0, without entries.
    pub fn new(alloc: Global, subject: S) -> Result<Board<S>, Memory>
        ensures { IfOk result (λ board. board ≡ []) }
    {
        Ok(Board {
            subject,
            log: Log::new(alloc),
            graph: Graph::new(alloc),
            stages: NameTable::new(alloc),
            closed: false,
            rings: false,
            opened: 0,
            entries: 0,
            installed: 0,
            candidates: Candidates::new(alloc, 0)?,
            history: Trail::new(),
        })
    }

    /// The number of edits made.
    pub fn version(&self) -> u32
        ensures { result ≡ version_after self.now }
    {
        self.log.version()
    }

    /// The log of the edits made.
    pub fn log(&self) -> &Log
        ensures { result.now ≡ log_of self.now }
    {
        &self.log
    }

    /// Whether the board was closed.
    pub fn closed(&self) -> bool
        ensures { result ≡ is_closed self.now }
    {
        self.closed
    }

    /// The number of entries. Whatever calls were made, the history is legal.
    pub fn entries(&self) -> u64
        ensures entries { result ≡ length self.now }
        ensures legal { IsLegal S.subject.dependencies self.now }
    {
        self.entries
    }

    /// The number of installs.
    pub fn installs(&self) -> u64
        ensures { result ≡ installs self.now }
    {
        self.installed
    }

    /// Closes the board, if it is not closed. It takes no memory.
    pub fn close(&mut self, pass: u32)
        requires { pass ≡ 0 }
        ensures { self.new ≡ after_call S.subject.dependencies self.old pass CloseCall }
    {
        if self.closed {
            return;
        }
        let version = self.log.version();
        self.history = noted(&self.history, pass, version, Event::Close);
        self.entries += 1;
        self.closed = true;
    }
}

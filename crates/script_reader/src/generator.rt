//! The generator of libraries.
ghost use Rattle.std.specs.Prelude.{◌≡◌, ◌≤◌, ◌<◌, ◌+◌, IfOk, OnOk, OnErr};
ghost use Rattle.edit_log.specs.Readings.{read_edit};
ghost use Rattle.script_reader.specs.Generating.{ComesNext, gave_one};

use crate::draws::draw_below;
use crate::generated::generated_put;
use edit_log::Edit;
use lf_terms::Memory;
use std::alloc::Global;
use std::marker::Model;

/// A library that is made from a number: first its modules are put one after another, and then modules that are drawn
/// are put again. It is seen as the number that it starts from, the number of its modules, and the number of the edits
/// that it has given.
#[derive(Drop)]
pub struct Gen {
    start: u32,
    modules: u32,
    given: u32,
}

impl Model for Gen {
    ghost use Rattle.std.specs.Prelude.{◌≤◌};
    ghost use Rattle.script_reader.specs.Generating.{Generating};

    ghost Value = { Generating };

    ghost view = { λ g. record { start = g.start; modules = g.modules; given = g.given } };

    ghost invariant = { λ g. (1 ≤ g.modules) × (g.modules ≤ 1000) };
}

impl Gen {
    /// A generator of so many modules, 1 to 1,000. It takes no memory.
    pub fn new(start: u32, modules: u32) -> Gen
        requires some { 1 ≤ modules }
        requires few { modules ≤ 1000 }
        ensures { result ≡ record { start = start; modules = modules; given = 0 } }
    {
        Gen {
            start,
            modules,
            given: 0,
        }
    }

    /// The edit at the next place.
    fn edit(&self, alloc: Global) -> Result<Edit, Memory>
        requires { self.now.given < self.now.modules + 1000 }
        ensures { IfOk result (λ edit. ComesNext self.now (read_edit edit)) }
    {
        if self.given < self.modules {
            return generated_put(alloc, self.start, self.given, 0);
        }
        let index = draw_below(self.start, self.given, self.modules);
        generated_put(alloc, self.start, index, self.given - self.modules + 1)
    }

    /// The next edit: a `Put` of each module in order, and then of modules that are drawn, at most 1,000 of them. Want
    /// of memory leaves the generator unchanged.
    pub fn next_edit(&mut self, alloc: Global) -> Result<Edit, Memory>
        requires { self.old.given < self.old.modules + 1000 }
        ensures edit { IfOk result (λ edit. ComesNext self.old (read_edit edit)) }
        ensures ok { OnOk result (self.new ≡ gave_one self.old) }
        ensures err { OnErr result (self.new ≡ self.old) }
    {
        let edit = self.edit(alloc)?;
        self.given += 1;
        Ok(edit)
    }
}

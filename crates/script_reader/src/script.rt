//! The script that is read.
ghost use Rattle.std.specs.Prelude.{◌≡◌, ◌≤◌, true, false, [], IsTrue, IfSome, IfOk, OnOk, OnErr, IsErrOf, ◌↔◌};
ghost use Rattle.printing_meaning.specs.Lines.{lines_of};
ghost use Rattle.run_meaning.specs.ScriptCommands.{next_of};
ghost use Rattle.mmt_outside.specs.Bytes.{ReadPrefix};
ghost use Rattle.mmt_outside.specs.Faults.{Rose};
ghost use Rattle.script_reader.specs.Reading.{to_come};
ghost use Rattle.script_reader.specs.Commands.{IsShort};
ghost use Rattle.script_reader.specs.Answers.{IsAnswer};
ghost use Rattle.script_reader.specs.Texts.{StaysTold};

use crate::buffer::Buffer;
use crate::command::Command;
use crate::fault::ScriptFault;
use crate::next::next;
use mmt_outside::Source;
use std::alloc::Global;
use std::marker::Model;

/// A script, as far as it was read. It is seen as the bytes that were read from the source and not used yet, the
/// number of the next line, and whether an error was answered.
#[derive(Drop)]
pub struct Script {
    buffer: Buffer,
    line: u64,
    is_spent: bool,
}

impl Model for Script {
    ghost use Rattle.script_reader.specs.Reading.{Reading};

    ghost Value = { Reading };

    ghost view = { λ s. record { buffered = s.buffer; line = s.line; is_spent = s.is_spent } };
}

impl Script {
    /// A script of which nothing was read. It takes no memory.
    pub fn new() -> Self
        ensures { result ≡ record { buffered = []; line = 1; is_spent = false } }
    {
        Script {
            buffer: Buffer::new(),
            line: 1,
            is_spent: false,
        }
    }

    /// The next command of the script. The bytes to come are those in the buffer, and then those that the source has
    /// left. Of the text of a `Put` the first 1,048,577 bytes are kept, which show that it is longer than a text may be.
    ///
    /// `Bad` where the line is longer than 1,024 bytes, is no command, blank line or comment, or is a `put` behind which
    /// more than 2^26 bytes stand in front of its end line or the end of the input; `Unended` where the input ends
    /// inside the text of a `put` and no more than that stand there; `Failed` only where the source did; `Spent` exactly
    /// where an earlier call answered an error; `Memory` for want of memory.
    pub fn next_command<S: Source>(
        &mut self,
        alloc: Global,
        source: &mut S,
    ) -> Result<Command, ScriptFault>
        // A script that answered an error answers `Spent` from then on, and reads nothing. This is tested before all else.
        ensures spent { IsErrOf result ScriptFault.Spent ↔ IsTrue self.old.is_spent }
        ensures unread { IsTrue self.old.is_spent → (self.new ≡ self.old) × (source.new ≡ source.old) }
        ensures command { OnOk result (self.new.is_spent ≡ false) }
        ensures error { OnErr result (self.new.is_spent ≡ true) }

        // Where the source tells its bytes, a command, `Bad` and `Unended` come exactly as the lines to come say.
        ensures answer { IfSome (to_come self.old (S.left source.old)) (λ bytes. self.old.is_spent ≡ false →
            IsAnswer result (next_of (lines_of bytes)) (lines_of bytes) (to_come self.new (S.left source.new))
            self.old.line self.old.line self.new.line) }
        ensures told { OnOk result (StaysTold (to_come self.old (S.left source.old)) (to_come self.new (S.left source.new))) }

        // Told or not.
        ensures short { IfOk result IsShort }
        ensures left { ReadPrefix (to_come self.old (S.left source.old)) (to_come self.new (S.left source.new)) }
        ensures later { S.faults source.old ≤ S.faults source.new }
        ensures failed { IsErrOf result ScriptFault.Failed → Rose (S.faults source.old) (S.faults source.new) }
    {
        if self.is_spent {
            return Err(ScriptFault::Spent);
        }
        let answer = next(alloc, &mut self.buffer, source, &mut self.line);
        self.is_spent = answer.is_err();
        answer
    }
}

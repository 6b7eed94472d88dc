//! Tokens that must come.
ghost use Rattle.std.specs.Prelude.{◌≡◌, ◌<◌, false, true, length, IfOk, OnOk};
ghost use Rattle.text_meaning.specs.Tokens.{Mark, EndSign};
ghost use Rattle.text_meaning.specs.Trees as trees;
ghost use Rattle.text_meaning.specs.Reading.{Tree, Read};
ghost use Rattle.text_meaning.specs.Parsing.{State, Whole, Expect, ExpectName, ExpectPath, Simple, answer_on, as_written, is_refused};
ghost use Rattle.mmt_syntax.specs.Readings.{read_written};
ghost use Rattle.twelf_lexer.specs.Lexemes.{mark_of};
ghost use Rattle.twelf_expressions.specs.Signs.{is_plain, is_sign};
ghost use Rattle.twelf_expressions.specs.Left.{left};
ghost use Rattle.twelf_expressions.specs.Going.{Goes, simple_of};

use crate::ReadFault;
use crate::reader::Reader;
use crate::refusing::Spot;
use mmt_syntax::Written;
use twelf_lexer::Sign;

impl<'a> Reader<'a> {
    /// Takes this sign, which must come.
    pub fn expect(&mut self, mark: Sign) -> Result<(), ReadFault>
        requires plain { is_plain mark ≡ true }
        requires not_end { is_sign (mark_of mark) (Mark EndSign) ≡ false }
        ensures goes { (next : State) → is_refused next ≡ false → Goes (answer_on (Expect (mark_of mark) next) (left self.old)) result (λ _. answer_on next (left self.new)) }
        ensures less { OnOk result (length (left self.new) < length (left self.old)) }
    {
        if !self.sees(mark) {
            return Err(self.refuse(Spot::Elsewhere));
        }
        self.take(mark);
        Ok(())
    }

    /// The end of the input must come.
    pub fn finish(&self) -> Result<(), ReadFault>
        ensures { (tree : Tree) → Goes (answer_on (Expect EndSign (Whole tree)) (left self.now)) result (λ _. Read tree) }
    {
        if !self.sees(Sign::End) {
            return Err(self.refuse(Spot::Elsewhere));
        }
        Ok(())
    }

    /// Takes an identifier of one name, which must come.
    pub fn name(&mut self) -> Result<Written, ReadFault>
        ensures goes { (f : Simple → State) → ((x : Simple) → is_refused (f x) ≡ false) → Goes (answer_on (ExpectName f) (left self.old)) result (λ word. answer_on (f (simple_of word)) (left self.new)) }
        ensures less { OnOk result (length (left self.new) < length (left self.old)) }
        ensures one { IfOk result (λ word. as_written (simple_of word) ≡ read_written word) }
    {
        if !self.sees_name() {
            return Err(self.refuse(Spot::Elsewhere));
        }
        let word = self.take_simple()?;
        Ok(word)
    }

    /// Takes an identifier, which must come.
    pub fn path(&mut self) -> Result<Written, ReadFault>
        ensures goes { (f : trees.Written → State) → ((w : trees.Written) → is_refused (f w) ≡ false) → Goes (answer_on (ExpectPath f) (left self.old)) result (λ word. answer_on (f (read_written word)) (left self.new)) }
        ensures less { OnOk result (length (left self.new) < length (left self.old)) }
    {
        if !self.sees_path() {
            return Err(self.refuse(Spot::Elsewhere));
        }
        let word = self.take_path()?;
        Ok(word)
    }
}

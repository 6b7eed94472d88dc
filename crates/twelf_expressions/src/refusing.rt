//! Tokens that are refused.
ghost use Rattle.std.specs.Prelude.{◌≡◌, ◌+◌, ◌∷◌, true, false, IfErr, IfOk};
ghost use Rattle.text_meaning.specs.Tokens.{Mark, Token};
ghost use Rattle.text_meaning.specs.Parsing.{State, Waiting, Row, AtOperand, NoAtoms, answer_on, begins_operand, is_bare_binder, is_refused, step, takes_include};
ghost use Rattle.twelf_lexer.specs.Lexemes.{word_mark};
ghost use Rattle.twelf_expressions.specs.Left.{left, next_kind, next_token};
ghost use Rattle.twelf_expressions.specs.Going.{Fails, answer_with, bare_at, left_out_at, takes_at};

use crate::ReadFault;
use crate::level::Level;
use crate::reader::Reader;
use twelf_lexer::{PercentWord, Sign};

/// Where a token is refused, as far as it decides whether this profile leaves it out.
#[derive(Clone, Copy, Debug)]
pub enum Spot {
    /// Where a declaration or an assignment could begin.
    Item,
    /// Directly behind `{` and its variable.
    Variable,
    Elsewhere,
}

impl Spot {
    fn takes_include(self) -> bool
        ensures { result ≡ takes_at self }
    {
        matches!(self, Spot::Item)
    }

    fn is_behind_variable(self) -> bool
        ensures { result ≡ bare_at self }
    {
        matches!(self, Spot::Variable)
    }

    /// Whether this profile leaves out a percent word that is refused here.
    fn leaves_out(self, word: PercentWord) -> bool
        ensures { result ≡ left_out_at self (Mark (word_mark word)) }
    {
        match word {
            PercentWord::Sig => self.takes_include(),
            PercentWord::View => self.takes_include(),
            PercentWord::Include => false,
            PercentWord::Struct => false,
            PercentWord::Other => true,
        }
    }
}

impl<'a> Reader<'a> {
    /// The fault of the next token, which is refused.
    pub fn refuse(&self, spot: Spot) -> ReadFault
        ensures { (s : State) → takes_include s ≡ takes_at spot → is_bare_binder s ≡ bare_at spot → is_refused (step s (next_token (left self.now))) ≡ true → Fails result (answer_on s (left self.now)) }
    {
        let at = self.place();
        if self.is_left_out(spot) {
            return ReadFault::Unsupported { at };
        }
        ReadFault::Syntax { at }
    }

    /// The fault of the next token, which is refused behind a whole expression.
    pub fn refuse_behind(&self) -> ReadFault
        ensures { (f : Token → State) → is_refused (f (next_token (left self.now))) ≡ true → Fails result (answer_with f (left self.now)) }
    {
        let at = self.place();
        if self.is_left_out(Spot::Elsewhere) {
            return ReadFault::Unsupported { at };
        }
        ReadFault::Syntax { at }
    }

    /// Whether the next token is one that this profile leaves out where it is refused.
    fn is_left_out(&self, spot: Spot) -> bool
        ensures { result ≡ left_out_at spot (next_kind (left self.now)) }
    {
        match self.next.sign {
            Sign::Percent(word) => spot.leaves_out(word),
            Sign::Blank => true,
            Sign::RBrace => spot.is_behind_variable(),
            _ => false,
        }
    }

    /// The next nesting, unless an expression there is too deep; then the next token is at fault.
    pub(crate) fn deeper(&self, level: Level) -> Result<Level, ReadFault>
        ensures ok { IfOk result (λ deeper. deeper.n ≡ level.n + 1) }
        ensures fault { IfErr result (λ fault. (row : Row) (k : Waiting) → Fails fault (answer_on (AtOperand (level.n + 1) row NoAtoms k) (left self.now))) }
    {
        match level.deeper() {
            Some(deeper) => Ok(deeper),
            None => Err(self.too_deep()),
        }
    }

    /// The fault of the next token where an expression would be too deep.
    fn too_deep(&self) -> ReadFault
        ensures { (row : Row) (k : Waiting) → Fails result (answer_on (AtOperand 501 row NoAtoms k) (left self.now)) }
    {
        if self.begins_operand() {
            return ReadFault::TooDeep { at: self.place() };
        }
        self.refuse(Spot::Elsewhere)
    }

    /// Whether the next token begins an atom or a binder.
    fn begins_operand(&self) -> bool
        ensures { result ≡ begins_operand (next_kind (left self.now)) }
    {
        matches!(
            self.next.sign,
            Sign::Name | Sign::Path | Sign::TypeWord | Sign::LParen | Sign::LBrace | Sign::LBracket
        )
    }
}

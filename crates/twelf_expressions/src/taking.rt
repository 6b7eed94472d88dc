//! The tokens of a text, taken one after the other.
ghost use Rattle.std.specs.Prelude.{◌≡◌, ◌∷◌, ◌<◌, ◌≤◌, ◌^◌, [], false, true, length, IfOk, OnOk};
ghost use Rattle.text_meaning.specs.Tokens as tokens;
ghost use Rattle.text_meaning.specs.Tokens.{Mark, EndSign, ident, sign};
ghost use Rattle.text_meaning.specs.Cut.{Ending};
ghost use Rattle.text_meaning.specs.Parsing.{Simple, as_written};
ghost use Rattle.twelf_lexer.specs.Lexemes.{is_last, mark_of};
ghost use Rattle.text_meaning.specs.Trees as trees;
ghost use Rattle.text_meaning.specs.Trees.{first_name};
ghost use Rattle.mmt_syntax.specs.Readings.{read_span, read_written};
ghost use Rattle.twelf_expressions.specs.Signs.{is_name, is_path, is_plain, is_sign};
ghost use Rattle.twelf_expressions.specs.Going.{simple_of};
ghost use Rattle.twelf_expressions.specs.Left.{last_token, left, left_from, next_kind, next_token, sign_ahead};

use crate::reader::Reader;
use lf_terms::{Memory, Name, Span};
use mmt_syntax::Written;
use std::alloc::Global;
use twelf_lexer::{NameTable, Sign, lexeme_at, path_of};

impl<'a> Reader<'a> {
    /// A text of which nothing is read yet.
    pub fn new(alloc: Global, text: &'a str) -> Reader<'a>
        requires small { length text.now ≤ 2 ^ 26 }
        ensures { left result ≡ left_from «text».now 0 }
    {
        Reader {
            alloc,
            names: NameTable::new(alloc),
            text,
            next: lexeme_at(text, 0),
            frames: Vec::new(alloc),
            brackets: Vec::new(alloc),
        }
    }

    /// The sign of what stands next.
    pub fn ahead(&self) -> Sign
        ensures { result ≡ sign_ahead self.now }
    {
        self.next.sign
    }

    /// Whether the next token is this sign.
    pub fn sees(&self, sign: Sign) -> bool
        requires { is_plain sign ≡ true }
        ensures { result ≡ is_sign (mark_of sign) (next_kind (left self.now)) }
    {
        self.next.sign == sign
    }

    /// Whether the next token is an identifier.
    pub fn sees_path(&self) -> bool
        ensures { result ≡ is_path (next_kind (left self.now)) }
    {
        matches!(self.next.sign, Sign::Name | Sign::Path)
    }

    /// Whether the next token is an identifier of one name.
    pub fn sees_name(&self) -> bool
        ensures { result ≡ is_name (next_kind (left self.now)) }
    {
        matches!(self.next.sign, Sign::Name)
    }

    /// Takes the next token, which is this sign.
    pub fn take(&mut self, mark: Sign) -> Span
        requires plain { is_plain mark ≡ true }
        requires sees { is_sign (mark_of mark) (next_kind (left self.old)) ≡ true }
        requires not_end { is_sign (mark_of mark) (Mark EndSign) ≡ false }
        ensures takes { left self.old ≡ sign (read_span result) (mark_of mark) ∷ left self.new }
        ensures less { length (left self.new) < length (left self.old) }
    {
        let span = self.next.span;
        self.next = lexeme_at(self.text, span.to as usize);
        span
    }

    /// Passes over the next token, unless it is the last, behind which nothing stands: the end of the input, or a
    /// comment without an end. It tells whether it was another.
    pub fn pass(&mut self) -> bool
        ensures passes { result ≡ true → left self.old ≡ next_token (left self.old) ∷ left self.new }
        ensures forward { result ≡ true → (next_token (left self.old)).span.from < (next_token (left self.new)).span.from }
        ensures less { result ≡ true → length (left self.new) < length (left self.old) }
        ensures last { result ≡ false → (end : Ending) × (left self.old ≡ last_token end ∷ []) }
    {
        match self.next.sign {
            Sign::End => false,
            Sign::OpenComment => false,
            _ => {
                self.next = lexeme_at(self.text, self.next.span.to as usize);
                true
            }
        }
    }

    /// Passes over the next token, behind which there is more.
    pub(crate) fn skip(&mut self)
        requires { is_last (sign_ahead self.old) ≡ false }
        ensures passes { left self.old ≡ next_token (left self.old) ∷ left self.new }
        ensures less { length (left self.new) < length (left self.old) }
    {
        self.next = lexeme_at(self.text, self.next.span.to as usize);
    }

    /// Passes over the next token, which is an identifier.
    pub fn skip_path(&mut self)
        requires { is_path (next_kind (left self.old)) ≡ true }
        ensures passes { (word : trees.Written) × (left self.old ≡ ident word.span word.path ∷ left self.new) }
        ensures less { length (left self.new) < length (left self.old) }
    {
        self.skip();
    }

    /// Passes over the next token, which is an identifier of one name.
    pub fn skip_name(&mut self)
        requires { is_name (next_kind (left self.old)) ≡ true }
        ensures passes { (word : Simple) × (left self.old ≡ ident word.at (word.name ∷ []) ∷ left self.new) }
        ensures less { length (left self.new) < length (left self.old) }
    {
        self.skip();
    }

    /// Takes the next token, which is an identifier.
    pub fn take_path(&mut self) -> Result<Written, Memory>
        requires { is_path (next_kind (left self.old)) ≡ true }
        ensures takes { IfOk result (λ word. left self.old ≡ ident (read_span word.span) word.path ∷ left self.new) }
        ensures less { OnOk result (length (left self.new) < length (left self.old)) }
    {
        let span = self.next.span;
        let path = path_of(self.alloc, &mut self.names, self.text, self.next)?;
        self.next = lexeme_at(self.text, span.to as usize);
        Ok(Written { path, span })
    }

    /// Takes the next token, which is an identifier of one name.
    pub(crate) fn take_name(&mut self) -> Result<Name, Memory>
        requires { is_name (next_kind (left self.old)) ≡ true }
        ensures takes { IfOk result (λ name. (s : tokens.Span) × (left self.old ≡ ident s (name ∷ []) ∷ left self.new)) }
        ensures less { OnOk result (length (left self.new) < length (left self.old)) }
    {
        let word = self.take_path()?;
        word.path.as_slice()[0].copy(self.alloc)
    }

    /// Takes the next token, which is an identifier of one name, as the path of that name.
    pub fn take_simple(&mut self) -> Result<Written, Memory>
        requires { is_name (next_kind (left self.old)) ≡ true }
        ensures takes { IfOk result (λ word. left self.old ≡ ident (read_span word.span) (first_name word.path ∷ []) ∷ left self.new) }
        ensures less { OnOk result (length (left self.new) < length (left self.old)) }
        ensures one { IfOk result (λ word. as_written (simple_of word) ≡ read_written word) }
    {
        let word = self.take_path()?;
        Ok(word)
    }

    /// The place of the next token.
    pub fn place(&self) -> u32
        ensures place { result ≡ (next_token (left self.now)).span.from }
        ensures small { result ≤ 2 ^ 26 }
    {
        self.next.span.from
    }
}

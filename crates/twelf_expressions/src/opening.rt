//! What an operand of an expression goes on with: brackets, binders and arrows.
ghost use Rattle.std.specs.Prelude.{◌≡◌, ◌<◌, ◌≤◌, ℕ, None, false, true, not, length, OnOk};
ghost use Rattle.text_meaning.specs.Tokens.{ArrowSign, BackSign, ColonSign, LeftBrace, LeftBracket, LeftParen};
ghost use Rattle.text_meaning.specs.Tokens as tokens;
ghost use Rattle.text_meaning.specs.Parsing as parsing;
ghost use Rattle.text_meaning.specs.Parsing.{AfterVariable, AtVariable, Waiting, answer_on, arrow_move, back_move, is_refused};
ghost use Rattle.mmt_syntax.specs.Readings.{read_binder, read_span};
ghost use Rattle.twelf_expressions.specs.Signs.{is_sign};
ghost use Rattle.twelf_expressions.specs.Left.{left, next_kind};
ghost use Rattle.twelf_expressions.specs.Going.{Goes};
ghost use Rattle.twelf_expressions.specs.Frames.{inside, of_stack, read_atoms, read_brace, read_row, stands};

use crate::ReadFault;
use crate::frame::{Binding, Brace, Frame, Opening, Operand, Row, Stack};
use crate::level::Level;
use crate::reader::Reader;
use crate::refusing::Spot;
use crate::tree::{applied, in_row};
use lf_terms::{Memory, Span};
use mmt_syntax::Binder;
use std::mem;
use twelf_lexer::Sign;

impl<'a> Reader<'a> {
    /// Behind what opens before an expression: the expression begins, one nesting deeper, and the operand waits for it.
    pub(crate) fn open(&self, stack: &mut Stack, opening: Opening) -> Result<(), ReadFault>
        ensures { (k : Waiting) → Goes (answer_on (of_stack (inside opening) stack.old k) (left self.now)) result (λ _. answer_on (stands stack.new k) (left self.now)) }
    {
        let level = self.deeper(stack.operand.level)?;
        let operand = mem::replace(&mut stack.operand, Operand::first(level));
        stack.frames.push(Frame::Open(opening, operand))?;
        Ok(())
    }

    /// At an opening parenthesis.
    pub(crate) fn parens(&mut self, stack: &mut Stack) -> Result<(), ReadFault>
        requires { is_sign LeftParen (next_kind (left self.old)) ≡ true }
        ensures goes { (k : Waiting) → Goes (answer_on (stands stack.old k) (left self.old)) result (λ _. answer_on (stands stack.new k) (left self.new)) }
        ensures less { OnOk result (length (left self.new) < length (left self.old)) }
    {
        let opening = self.take(Sign::LParen);
        self.open(stack, Opening::Parens(opening))
    }

    /// At the bracket of a Π.
    pub(crate) fn braces(&mut self, stack: &mut Stack) -> Result<(), ReadFault>
        requires { is_sign LeftBrace (next_kind (left self.old)) ≡ true }
        ensures goes { (k : Waiting) → Goes (answer_on (stands stack.old k) (left self.old)) result (λ _. answer_on (stands stack.new k) (left self.new)) }
        ensures less { OnOk result (length (left self.new) < length (left self.old)) }
    {
        let opening = self.take(Sign::LBrace);
        self.binder(stack, Brace::Curly, opening)
    }

    /// At the bracket of a λ.
    pub(crate) fn brackets(&mut self, stack: &mut Stack) -> Result<(), ReadFault>
        requires { is_sign LeftBracket (next_kind (left self.old)) ≡ true }
        ensures goes { (k : Waiting) → Goes (answer_on (stands stack.old k) (left self.old)) result (λ _. answer_on (stands stack.new k) (left self.new)) }
        ensures less { OnOk result (length (left self.new) < length (left self.old)) }
    {
        let opening = self.take(Sign::LBracket);
        self.binder(stack, Brace::Square, opening)
    }

    /// Behind the bracket of a binder: its variable, and then its domain begins, or the body of a λ without one.
    fn binder(&mut self, stack: &mut Stack, brace: Brace, opening: Span) -> Result<(), ReadFault>
        ensures goes { (k : Waiting) → Goes (answer_on (of_stack (AtVariable (read_brace brace) (read_span opening)) stack.old k) (left self.old)) result (λ _. answer_on (stands stack.new k) (left self.new)) }
        ensures less { OnOk result (length (left self.new) ≤ length (left self.old)) }
    {
        let name = self.variable()?;
        match (self.next.sign, brace) {
            (Sign::Colon, _) => {
                self.take(Sign::Colon);
                self.open(stack, Opening::Domain(brace, opening, name))
            }
            (Sign::RBracket, Brace::Square) => {
                self.take(Sign::RBracket);
                self.open(stack, Opening::Body(opening, Binding::Lam(name)))
            }
            (_, Brace::Curly) => {
                drop(name);
                Err(self.refuse(Spot::Variable))
            }
            (_, Brace::Square) => {
                drop(name);
                Err(self.refuse(Spot::Elsewhere))
            }
        }
    }

    /// The variable of a binder.
    fn variable(&mut self) -> Result<Binder, ReadFault>
        ensures goes { (b : parsing.Brace) (l : tokens.Span) (n : ℕ) (row : parsing.Row) (xs : parsing.Atoms) (k : Waiting) → Goes
            (answer_on (AtVariable b l n row xs k) (left self.old)) result (λ x. answer_on (AfterVariable b l (read_binder x) n row xs k) (left self.new)) }
        ensures less { OnOk result (length (left self.new) ≤ length (left self.old)) }
    {
        match self.next.sign {
            Sign::Blank => {
                self.take(Sign::Blank);
                Ok(Binder::Blank)
            }
            Sign::Name => {
                let name = self.take_name()?;
                Ok(Binder::Named(name))
            }
            _ => Err(self.refuse(Spot::Elsewhere)),
        }
    }

    /// At an arrow: the operand is whole, and what follows the arrow begins.
    pub(crate) fn arrow(&mut self, stack: &mut Stack) -> Result<(), ReadFault>
        requires { is_sign ArrowSign (next_kind (left self.old)) ≡ true }
        ensures goes { (k : Waiting) → Goes (answer_on (stands stack.old k) (left self.old)) result (λ _. answer_on (stands stack.new k) (left self.new)) }
        ensures less { OnOk result (length (left self.new) < length (left self.old)) }
    {
        if !stack.operand.takes_arrow() {
            return Err(self.refuse(Spot::Elsewhere));
        }
        self.take(Sign::Arrow);
        let level = self.deeper(stack.operand.level)?;
        match stack.operand.atoms.take() {
            None => unreachable!(),
            Some(atoms) => {
                let dom = applied(self.alloc, atoms)?;
                stack.frames.push(Frame::Codomain(dom))?;
                stack.operand.next(level, Row::AfterArrow);
                Ok(())
            }
        }
    }

    /// At a back arrow: the operand joins its row, and the next operand begins.
    pub(crate) fn back_arrow(&mut self, stack: &mut Stack) -> Result<(), ReadFault>
        requires { is_sign BackSign (next_kind (left self.old)) ≡ true }
        ensures goes { (k : Waiting) → Goes (answer_on (stands stack.old k) (left self.old)) result (λ _. answer_on (stands stack.new k) (left self.new)) }
        ensures less { OnOk result (length (left self.new) < length (left self.old)) }
    {
        if !stack.operand.takes_back_arrow() {
            return Err(self.refuse(Spot::Elsewhere));
        }
        self.take(Sign::BackArrow);
        let level = self.deeper(stack.operand.level)?;
        match stack.operand.atoms.take() {
            None => unreachable!(),
            Some(atoms) => {
                let operand = applied(self.alloc, atoms)?;
                let so_far = mem::replace(&mut stack.operand.row, Row::Plain);
                let row = in_row(self.alloc, so_far, operand)?;
                stack.operand.next(level, Row::AfterBack(row));
                Ok(())
            }
        }
    }
}

impl Operand {
    /// Whether an arrow may follow: there are atoms, and no row of back arrows.
    fn takes_arrow(&self) -> bool
        ensures { (n : ℕ) (k : Waiting) → is_refused (arrow_move n (read_row self.now.row) (read_atoms self.now.atoms) k) ≡ not result }
    {
        match &self.atoms {
            None => false,
            Some(_) => match &self.row {
                Row::Plain => true,
                Row::AfterArrow => true,
                Row::AfterBack(_) => false,
            },
        }
    }

    /// Whether a back arrow may follow: there are atoms, and no row of arrows.
    fn takes_back_arrow(&self) -> bool
        ensures { (n : ℕ) (k : Waiting) → is_refused (back_move n (read_row self.now.row) (read_atoms self.now.atoms) k) ≡ not result }
    {
        match &self.atoms {
            None => false,
            Some(_) => match &self.row {
                Row::Plain => true,
                Row::AfterArrow => false,
                Row::AfterBack(_) => true,
            },
        }
    }

    /// The next operand of a row begins.
    fn next(&mut self, level: Level, row: Row)
        ensures level { self.new.level.n ≡ level.n }
        ensures row { self.new.row ≡ row }
        ensures atoms { self.new.atoms ≡ None }
    {
        let next = Operand {
            level,
            row,
            atoms: None,
        };
        drop(mem::replace(self, next));
    }
}

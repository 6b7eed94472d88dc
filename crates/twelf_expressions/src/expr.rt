//! Expressions, read by one loop over a stack of what is open, so that their depth takes no call stack.
ghost use Rattle.std.specs.Prelude.{◌≡◌, ◌<◌, ◌≤◌, None, true, length, IfOk, OnOk};
ghost use Rattle.text_meaning.specs.Tokens.{TypeWord};
ghost use Rattle.text_meaning.specs.Parsing.{Ends, Purpose, Waiting, answer_on, at_expr, purpose_ends};
ghost use Rattle.twelf_expressions.specs.Signs.{is_path, is_sign};
ghost use Rattle.mmt_syntax.specs.Readings.{read_expr};
ghost use Rattle.twelf_expressions.specs.Left.{left, next_kind};
ghost use Rattle.twelf_expressions.specs.Going.{Goes, answer_with};
ghost use Rattle.twelf_expressions.specs.Frames.{Turned, stands};

use crate::ReadFault;
use crate::frame::{Operand, Spelled, Stack};
use crate::level::Level;
use crate::reader::Reader;
use mmt_syntax::{Expr, Node};
use std::mem;
use twelf_lexer::Sign;

impl<'a> Reader<'a> {
    /// An expression of a declaration, an assignment or a judgement. The token behind it is left.
    pub fn expr(&mut self) -> Result<Expr, ReadFault>
        ensures goes { (p : Purpose) → Goes (answer_on (at_expr 1 (Ends p)) (left self.old)) result (λ e. answer_with (λ t. purpose_ends p (read_expr e) t.kind) (left self.new)) }
        ensures less { OnOk result (length (left self.new) ≤ length (left self.old)) }
    {
        let mut stack = self.stack();
        let tree = self.tree(&mut stack);
        self.put_back(stack);
        tree
    }

    /// The expression that the operand of the stack begins, which nothing else in the stack waits for.
    fn tree(&mut self, stack: &mut Stack) -> Result<Expr, ReadFault>
        ensures goes { (p : Purpose) → Goes (answer_on (stands stack.old (Ends p)) (left self.old)) result (λ e. answer_with (λ t. purpose_ends p (read_expr e) t.kind) (left self.new)) }
        ensures less { OnOk result (length (left self.new) ≤ length (left self.old)) }
    {
        'turns: loop {
            if let Some(whole) = self.turn(stack)? {
                return Ok(whole.tree);
            }
        }
    }

    /// Keeps the room of the frames for the next expression.
    fn put_back(&mut self, stack: Stack)
        ensures { left self.new ≡ left self.old }
    {
        let Stack { frames, operand } = stack;
        drop(operand);
        drop(mem::replace(&mut self.frames, frames));
    }

    /// The stack before an expression.
    fn stack(&mut self) -> Stack
        ensures begins { (k : Waiting) → stands result k ≡ at_expr 1 k }
        ensures same { left self.new ≡ left self.old }
    {
        let mut frames = mem::replace(&mut self.frames, Vec::new(self.alloc));
        frames.clear();
        Stack {
            frames,
            operand: Operand::first(Level::first()),
        }
    }

    /// Takes the next token into the operand, or goes on behind the operand, which ends before it. An expression comes
    /// where it is whole and nothing in the stack waits for it.
    fn turn(&mut self, stack: &mut Stack) -> Result<Option<Spelled>, ReadFault>
        ensures goes { (k : Waiting) → Turned (answer_on (stands stack.old k) (left self.old)) result k stack.new (left self.new) }
        ensures less { IfOk result (λ turn. turn ≡ None → length (left self.new) < length (left self.old)) }
        ensures within { OnOk result (length (left self.new) ≤ length (left self.old)) }
    {
        match self.next.sign {
            Sign::Name | Sign::Path => {
                self.identifier(stack)?;
                Ok(None)
            }
            Sign::TypeWord => {
                self.type_word(stack)?;
                Ok(None)
            }
            Sign::LParen => {
                self.parens(stack)?;
                Ok(None)
            }
            Sign::LBrace => {
                self.braces(stack)?;
                Ok(None)
            }
            Sign::LBracket => {
                self.brackets(stack)?;
                Ok(None)
            }
            Sign::Arrow => {
                self.arrow(stack)?;
                Ok(None)
            }
            Sign::BackArrow => {
                self.back_arrow(stack)?;
                Ok(None)
            }
            _ => self.end_operand(stack),
        }
    }

    /// At an identifier: it is an atom.
    fn identifier(&mut self, stack: &mut Stack) -> Result<(), ReadFault>
        requires { is_path (next_kind (left self.old)) ≡ true }
        ensures goes { (k : Waiting) → Goes (answer_on (stands stack.old k) (left self.old)) result (λ _. answer_on (stands stack.new k) (left self.new)) }
        ensures less { OnOk result (length (left self.new) < length (left self.old)) }
    {
        let word = self.take_path()?;
        stack
            .operand
            .add_node(self.alloc, word.span, Node::Name(word.path))?;
        Ok(())
    }

    /// At `type`: it is an atom.
    fn type_word(&mut self, stack: &mut Stack) -> Result<(), ReadFault>
        requires { is_sign TypeWord (next_kind (left self.old)) ≡ true }
        ensures goes { (k : Waiting) → Goes (answer_on (stands stack.old k) (left self.old)) result (λ _. answer_on (stands stack.new k) (left self.new)) }
        ensures less { OnOk result (length (left self.new) < length (left self.old)) }
    {
        let span = self.take(Sign::TypeWord);
        stack.operand.add_node(self.alloc, span, Node::Ty)?;
        Ok(())
    }
}

//! Expressions that are whole, and what waits for them.
ghost use Rattle.std.specs.Prelude.{◌≡◌, ◌<◌, ◌≤◌, None, length, IfOk, OnOk};
ghost use Rattle.text_meaning.specs.Parsing.{InDomain, InParens, Waiting, operand_ends};
ghost use Rattle.mmt_syntax.specs.Readings.{read_binder, read_span};
ghost use Rattle.twelf_expressions.specs.Left.{left};
ghost use Rattle.twelf_expressions.specs.Going.{answer_with};
ghost use Rattle.twelf_expressions.specs.Frames.{Turned, answer_resumed, of_stack, read_brace, waiting};

use crate::ReadFault;
use crate::frame::{Brace, Frame, Opening, Row, Spelled, Stack};
use crate::reader::Reader;
use crate::tree::{applied, arrow, close_body, in_row, join};
use lf_terms::Span;
use mmt_syntax::Binder;
use std::mem;
use twelf_lexer::Sign;

impl<'a> Reader<'a> {
    /// The operand ends before the next token.
    pub(crate) fn end_operand(&mut self, stack: &mut Stack) -> Result<Option<Spelled>, ReadFault>
        ensures goes { (k : Waiting) → Turned (answer_with (of_stack (λ n. operand_ends) stack.old k) (left self.old)) result k stack.new (left self.new) }
        ensures less { IfOk result (λ turn. turn ≡ None → length (left self.new) < length (left self.old)) }
        ensures within { OnOk result (length (left self.new) ≤ length (left self.old)) }
    {
        match stack.operand.atoms.take() {
            None => Err(self.refuse_behind()),
            Some(atoms) => {
                let operand = applied(self.alloc, atoms)?;
                let row = mem::replace(&mut stack.operand.row, Row::Plain);
                let whole = in_row(self.alloc, row, operand)?;
                self.resume(stack, whole)
            }
        }
    }

    /// An expression is whole, and the next token stands behind it. What waits for it takes it, up to a bracket that
    /// the token closes.
    fn resume(&mut self, stack: &mut Stack, whole: Spelled) -> Result<Option<Spelled>, ReadFault>
        ensures goes { (k : Waiting) → Turned (answer_resumed (waiting k stack.old.frames.items) whole (left self.old)) result k stack.new (left self.new) }
        ensures less { IfOk result (λ turn. turn ≡ None → length (left self.new) < length (left self.old)) }
        ensures within { OnOk result (length (left self.new) ≤ length (left self.old)) }
    {
        let mut whole = whole;
        'rows: loop {
            match stack.frames.pop() {
                None => return Ok(Some(whole)),
                Some(Frame::Codomain(dom)) => whole = arrow(self.alloc, dom, whole)?,
                Some(Frame::Open(opening, operand)) => {
                    drop(mem::replace(&mut stack.operand, operand));
                    match opening {
                        Opening::Parens(span) => return self.close_parens(stack, span, whole),
                        Opening::Domain(brace, span, name) => {
                            return self.close_domain(stack, brace, span, name, whole);
                        }
                        Opening::Body(span, binding) => {
                            whole = close_body(
                                self.alloc,
                                span,
                                binding,
                                &mut stack.operand,
                                whole,
                            )?;
                        }
                    }
                }
            }
        }
    }

    /// Behind an expression in parentheses: it is an atom.
    fn close_parens(
        &mut self,
        stack: &mut Stack,
        opening: Span,
        inside: Spelled,
    ) -> Result<Option<Spelled>, ReadFault>
        ensures goes { (k : Waiting) → Turned (answer_resumed (of_stack (InParens (read_span opening)) stack.old k) inside (left self.old)) result k stack.new (left self.new) }
        ensures less { OnOk result (length (left self.new) < length (left self.old)) }
    {
        if !self.sees(Sign::RParen) {
            drop(inside);
            return Err(self.refuse_behind());
        }
        let closing = self.take(Sign::RParen);
        stack
            .operand
            .add_atom(self.alloc, join(opening, closing), inside.tree)?;
        Ok(None)
    }

    /// Behind the domain of a binder: its body begins.
    fn close_domain(
        &mut self,
        stack: &mut Stack,
        brace: Brace,
        opening: Span,
        name: Binder,
        domain: Spelled,
    ) -> Result<Option<Spelled>, ReadFault>
        ensures goes { (k : Waiting) → Turned (answer_resumed (of_stack (InDomain (read_brace brace) (read_span opening) (read_binder name)) stack.old k) domain (left self.old)) result k stack.new (left self.new) }
        ensures less { OnOk result (length (left self.new) < length (left self.old)) }
    {
        let closing = brace.closing();
        if !self.sees(closing) {
            drop(name);
            drop(domain);
            return Err(self.refuse_behind());
        }
        self.take(closing);
        let domain = Box::new(self.alloc, domain.tree)?;
        self.open(stack, Opening::Body(opening, brace.binding(name, domain)))?;
        Ok(None)
    }
}

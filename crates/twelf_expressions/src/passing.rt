//! Expressions that are passed over: they are read as by the reader of expressions, and no tree is made of them.
ghost use Rattle.std.specs.Prelude.{◌≡◌, ◌+◌, ◌∷◌, ◌<◌, ◌≤◌, ℕ, false, true, length, IfOk, OnOk};
ghost use Rattle.text_meaning.specs.Reading.{Answer};
ghost use Rattle.text_meaning.specs.Tokens as tokens;
ghost use Rattle.text_meaning.specs.Tokens.{ArrowSign, BackSign, ColonSign, EndSign, Mark};
ghost use Rattle.text_meaning.specs.Trees.{Binder};
ghost use Rattle.text_meaning.specs.Parsing as parsing;
ghost use Rattle.text_meaning.specs.Parsing.{AfterVariable, AtOperand, AtVariable, Ends, NoAtoms, Purpose, State, Waiting, answer_on, at_expr, expect, is_refused};
ghost use Rattle.twelf_lexer.specs.Lexemes.{mark_of};
ghost use Rattle.twelf_expressions.specs.Signs.{is_plain, is_sign};
ghost use Rattle.twelf_expressions.specs.Going.{answer_with};
ghost use Rattle.twelf_expressions.specs.Left.{left, next_kind};
ghost use Rattle.twelf_expressions.specs.Frames.{read_brace};
ghost use Rattle.twelf_expressions.specs.Outlines.{IsBehind, Passes, Stands, Turns, Waits, at_operand, behind_operand, inward, is_atom, stand_of};

use crate::ReadFault;
use crate::frame::Brace;
use crate::level::Level;
use crate::outline::{Bracket, Open, Outline, Stand};
use crate::reader::Reader;
use crate::refusing::Spot;
use std::mem;
use twelf_lexer::Sign;

impl<'a> Reader<'a> {
    /// Passes over an expression of a declaration or an assignment. The token behind it is left.
    pub fn pass_expr(&mut self) -> Result<(), ReadFault>
        ensures goes { (p : Purpose) → Passes (answer_on (at_expr 1 (Ends p)) (left self.old)) result (λ _. IsBehind p (answer_on (at_expr 1 (Ends p)) (left self.old)) (left self.new)) }
        ensures less { OnOk result (length (left self.new) ≤ length (left self.old)) }
    {
        let mut stack = self.nothing_open();
        let passed = self.pass_operands(&mut stack);
        self.keep_room(stack);
        passed
    }

    /// The stack before an expression.
    fn nothing_open(&mut self) -> Open
        ensures begins { (p : Purpose) → Stands p at_operand (answer_on (at_expr 1 (Ends p)) (left self.old)) result (left self.old) }
        ensures same { left self.new ≡ left self.old }
    {
        let mut brackets = mem::replace(&mut self.brackets, Vec::new(self.alloc));
        brackets.clear();
        Open {
            brackets,
            operand: Outline {
                level: Level::first(),
                stand: Stand::Plain,
                begun: false,
            },
        }
    }

    /// Keeps the room of the brackets for the next expression.
    fn keep_room(&mut self, stack: Open)
        ensures { left self.new ≡ left self.old }
    {
        drop(mem::replace(&mut self.brackets, stack.brackets));
    }

    /// Passes over the expression that the operand of the stack begins, up to its end.
    fn pass_operands(&mut self, stack: &mut Open) -> Result<(), ReadFault>
        ensures goes { (p : Purpose) (answer : Answer) → Stands p at_operand answer stack.old (left self.old) → Passes answer result (λ _. IsBehind p answer (left self.new)) }
        ensures less { OnOk result (length (left self.new) ≤ length (left self.old)) }
    {
        while !self.pass_turn(stack)? {}
        Ok(())
    }

    /// Passes over the next token of the operand, or ends the operand before it. It tells whether the expression is
    /// whole.
    fn pass_turn(&mut self, stack: &mut Open) -> Result<bool, ReadFault>
        ensures goes { (p : Purpose) (answer : Answer) → Stands p at_operand answer stack.old (left self.old) → Passes answer result (Turns p answer stack.new (left self.new)) }
        ensures less { IfOk result (λ whole. whole ≡ false → length (left self.new) < length (left self.old)) }
        ensures within { OnOk result (length (left self.new) ≤ length (left self.old)) }
    {
        match self.next.sign {
            Sign::Name | Sign::Path | Sign::TypeWord => {
                self.pass_atom(stack);
                Ok(false)
            }
            Sign::LParen => {
                self.take(Sign::LParen);
                let operand = stack.operand;
                self.enter(stack, Bracket::Parens(operand.level, operand.stand))?;
                Ok(false)
            }
            Sign::LBrace => {
                self.take(Sign::LBrace);
                self.pass_binder(stack, Brace::Curly)?;
                Ok(false)
            }
            Sign::LBracket => {
                self.take(Sign::LBracket);
                self.pass_binder(stack, Brace::Square)?;
                Ok(false)
            }
            Sign::Arrow => {
                self.pass_arrow(stack)?;
                Ok(false)
            }
            Sign::BackArrow => {
                self.pass_back_arrow(stack)?;
                Ok(false)
            }
            _ => self.close(stack),
        }
    }

    /// At an atom of one token: the operand has it.
    fn pass_atom(&mut self, stack: &mut Open)
        requires { is_atom (next_kind (left self.old)) ≡ true }
        ensures goes { (p : Purpose) (answer : Answer) → Stands p at_operand answer stack.old (left self.old) → Stands p at_operand answer stack.new (left self.new) }
        ensures less { length (left self.new) < length (left self.old) }
    {
        self.skip();
        stack.operand.begun = true;
    }

    /// The next operand begins, one nesting deeper.
    fn next_operand(&self, stack: &mut Open, stand: Stand) -> Result<(), ReadFault>
        ensures { (p : Purpose) (answer : Answer) (row : parsing.Row) (k : Waiting) → stand_of row ≡ stand → Waits p (inward stack.old) k
            → answer ≡ answer_on (AtOperand (stack.old.operand.level.n + 1) row NoAtoms k) (left self.now)
            → Passes answer result (λ _. Stands p at_operand answer stack.new (left self.now)) }
    {
        let level = self.deeper(stack.operand.level)?;
        stack.operand = Outline {
            level,
            stand,
            begun: false,
        };
        Ok(())
    }

    /// Behind a bracket: an expression begins, one nesting deeper.
    fn enter(&self, stack: &mut Open, bracket: Bracket) -> Result<(), ReadFault>
        ensures { (p : Purpose) (answer : Answer) (k : Waiting) → Waits p (bracket ∷ inward stack.old) k
            → answer ≡ answer_on (at_expr (stack.old.operand.level.n + 1) k) (left self.now)
            → Passes answer result (λ _. Stands p at_operand answer stack.new (left self.now)) }
    {
        stack.brackets.push(bracket)?;
        self.next_operand(stack, Stand::Plain)
    }

    /// Behind the bracket of a binder: its variable, and then its domain begins, or the body of a λ without one.
    fn pass_binder(&mut self, stack: &mut Open, brace: Brace) -> Result<(), ReadFault>
        ensures goes { (p : Purpose) (answer : Answer) (l : tokens.Span) → Stands p (λ n row xs k ts. answer_on (AtVariable (read_brace brace) l n row xs k) ts) answer stack.old (left self.old)
            → Passes answer result (λ _. Stands p at_operand answer stack.new (left self.new)) }
        ensures less { OnOk result (length (left self.new) ≤ length (left self.old)) }
    {
        self.pass_variable()?;
        if !self.sees(Sign::Colon) {
            return self.pass_end_of_binder(stack, brace);
        }
        self.take(Sign::Colon);
        let level = stack.operand.level;
        self.enter(stack, Bracket::Domain(brace, level))
    }

    /// Behind the variable of a binder without a domain: the bracket that ends a λ, and then its body begins.
    fn pass_end_of_binder(&mut self, stack: &mut Open, brace: Brace) -> Result<(), ReadFault>
        requires { is_sign ColonSign (next_kind (left self.old)) ≡ false }
        ensures goes { (p : Purpose) (answer : Answer) (l : tokens.Span) (x : Binder) → Stands p (λ n row xs k ts. answer_on (AfterVariable (read_brace brace) l x n row xs k) ts) answer stack.old (left self.old)
            → Passes answer result (λ _. Stands p at_operand answer stack.new (left self.new)) }
        ensures less { OnOk result (length (left self.new) ≤ length (left self.old)) }
    {
        match brace {
            Brace::Curly => Err(self.refuse(Spot::Variable)),
            Brace::Square => {
                if !self.sees(Sign::RBracket) {
                    return Err(self.refuse(Spot::Elsewhere));
                }
                self.take(Sign::RBracket);
                self.next_operand(stack, Stand::Plain)
            }
        }
    }

    /// Passes over the variable of a binder.
    fn pass_variable(&mut self) -> Result<(), ReadFault>
        ensures goes { (b : parsing.Brace) (l : tokens.Span) (n : ℕ) (row : parsing.Row) (xs : parsing.Atoms) (k : Waiting) → Passes
            (answer_on (AtVariable b l n row xs k) (left self.old)) result (λ _. (x : Binder) × (answer_on (AtVariable b l n row xs k) (left self.old) ≡ answer_on (AfterVariable b l x n row xs k) (left self.new))) }
        ensures less { OnOk result (length (left self.new) ≤ length (left self.old)) }
    {
        match self.next.sign {
            Sign::Blank => {
                self.take(Sign::Blank);
                Ok(())
            }
            Sign::Name => {
                self.skip_name();
                Ok(())
            }
            _ => Err(self.refuse(Spot::Elsewhere)),
        }
    }

    /// At an arrow: the operand is whole, and what follows the arrow begins.
    fn pass_arrow(&mut self, stack: &mut Open) -> Result<(), ReadFault>
        requires { is_sign ArrowSign (next_kind (left self.old)) ≡ true }
        ensures goes { (p : Purpose) (answer : Answer) → Stands p at_operand answer stack.old (left self.old) → Passes answer result (λ _. Stands p at_operand answer stack.new (left self.new)) }
        ensures less { OnOk result (length (left self.new) < length (left self.old)) }
    {
        if !stack.operand.takes_arrow() {
            return Err(self.refuse(Spot::Elsewhere));
        }
        self.take(Sign::Arrow);
        self.next_operand(stack, Stand::AfterArrow)
    }

    /// At a back arrow: the operand joins its row, and the next operand begins.
    fn pass_back_arrow(&mut self, stack: &mut Open) -> Result<(), ReadFault>
        requires { is_sign BackSign (next_kind (left self.old)) ≡ true }
        ensures goes { (p : Purpose) (answer : Answer) → Stands p at_operand answer stack.old (left self.old) → Passes answer result (λ _. Stands p at_operand answer stack.new (left self.new)) }
        ensures less { OnOk result (length (left self.new) < length (left self.old)) }
    {
        if !stack.operand.takes_back_arrow() {
            return Err(self.refuse(Spot::Elsewhere));
        }
        self.take(Sign::BackArrow);
        self.next_operand(stack, Stand::AfterBack)
    }

    /// The operand ends before the next token, which closes the innermost bracket. The expression is whole where none is
    /// open.
    fn close(&mut self, stack: &mut Open) -> Result<bool, ReadFault>
        ensures goes { (p : Purpose) (answer : Answer) → Stands p behind_operand answer stack.old (left self.old) → Passes answer result (Turns p answer stack.new (left self.new)) }
        ensures less { IfOk result (λ whole. whole ≡ false → length (left self.new) < length (left self.old)) }
        ensures within { OnOk result (length (left self.new) ≤ length (left self.old)) }
    {
        if !stack.operand.begun {
            return Err(self.refuse_behind());
        }
        match stack.brackets.pop() {
            None => Ok(true),
            Some(Bracket::Parens(level, stand)) => {
                self.close_with(Sign::RParen)?;
                stack.operand = Outline {
                    level,
                    stand,
                    begun: true,
                };
                Ok(false)
            }
            Some(Bracket::Domain(brace, level)) => {
                self.close_with(brace.closing())?;
                stack.operand.level = level;
                self.next_operand(stack, Stand::Plain)?;
                Ok(false)
            }
        }
    }

    /// Takes the bracket that must come behind an expression.
    fn close_with(&mut self, closing: Sign) -> Result<(), ReadFault>
        requires plain { is_plain closing ≡ true }
        requires not_end { is_sign (mark_of closing) (Mark EndSign) ≡ false }
        ensures goes { (next : tokens.Span → State) → ((s : tokens.Span) → is_refused (next s) ≡ false) → Passes (answer_with (λ t. expect (mark_of closing) t.kind (next t.span)) (left self.old)) result
            (λ _. (s : tokens.Span) × (answer_with (λ t. expect (mark_of closing) t.kind (next t.span)) (left self.old) ≡ answer_on (next s) (left self.new))) }
        ensures less { OnOk result (length (left self.new) < length (left self.old)) }
    {
        if !self.sees(closing) {
            return Err(self.refuse_behind());
        }
        self.take(closing);
        Ok(())
    }
}

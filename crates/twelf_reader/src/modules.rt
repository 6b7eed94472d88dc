//! Modules and judgements.
ghost use Rattle.text_meaning.specs.Tokens.{ColonSign};
ghost use Rattle.text_meaning.specs.Trees as trees;
ghost use Rattle.text_meaning.specs.Trees.{ViewModule};
ghost use Rattle.text_meaning.specs.Reading.{JudgementTree, ModuleTree, Read};
ghost use Rattle.text_meaning.specs.Parsing.{AtModule, Ends, Expect, ExpectName, FamilyOf, ObjectOf, Simple, answer_on, as_written, at_expr};
ghost use Rattle.mmt_syntax.specs.Readings.{read_assigns, read_expr, read_judgement, read_module};
ghost use Rattle.twelf_expressions.specs.Left.{left};
ghost use Rattle.twelf_expressions.specs.Going.{Goes};
ghost use Rattle.twelf_reader.specs.Items.{theory_named, view_named, view_to};

use crate::assigns::assigns;
use crate::decls::decls;
use crate::heads::{end_text, name_behind, open_body};
use mmt_syntax::{Assigns, Expr, Judgement, Module, ViewDecl};
use twelf_expressions::{ReadFault, Reader, Spot};
use twelf_lexer::{PercentWord, Sign};

/// A module and nothing else.
pub(crate) fn whole_module(reader: &mut Reader) -> Result<Module, ReadFault>
    ensures { Goes (answer_on AtModule (left reader.old)) result (λ m. Read (ModuleTree (read_module m))) }
{
    match reader.ahead() {
        Sign::Percent(PercentWord::Sig) => {
            reader.take(Sign::Percent(PercentWord::Sig));
            theory(reader)
        }
        Sign::Percent(PercentWord::View) => {
            reader.take(Sign::Percent(PercentWord::View));
            view(reader)
        }
        _ => Err(reader.refuse(Spot::Elsewhere)),
    }
}

/// Behind `%sig`.
fn theory(reader: &mut Reader) -> Result<Module, ReadFault>
    ensures { Goes (answer_on (ExpectName theory_named) (left reader.old)) result (λ m. Read (ModuleTree (read_module m))) }
{
    let name = reader.name()?;
    open_body(reader)?;
    let decls = decls(reader)?;
    end_text(reader)?;
    Ok(Module::Sig { name, decls })
}

/// Behind `%view`.
fn view(reader: &mut Reader) -> Result<Module, ReadFault>
    ensures { Goes (answer_on (ExpectName view_named) (left reader.old)) result (λ m. Read (ModuleTree (read_module m))) }
{
    let name = reader.name()?;
    let domain = name_behind(reader, Sign::Colon)?;
    let codomain = name_behind(reader, Sign::Arrow)?;
    let assigns = view_body(reader)?;
    Ok(Module::View(ViewDecl {
        name,
        domain,
        codomain,
        assigns,
    }))
}

/// Behind the codomain of a view: its assignments, and the end of the input.
fn view_body(reader: &mut Reader) -> Result<Assigns, ReadFault>
    ensures { (x y z : Simple) → Goes (answer_on (view_to x y z) (left reader.old)) result (λ xs. Read (ModuleTree (ViewModule (as_written x) (as_written y) (as_written z) (read_assigns xs)))) }
{
    open_body(reader)?;
    let assigns = assigns(reader)?;
    end_text(reader)?;
    Ok(assigns)
}

/// A judgement and nothing else.
pub(crate) fn whole_judgement(reader: &mut Reader) -> Result<Judgement, ReadFault>
    ensures { Goes (answer_on (at_expr 1 (Ends ObjectOf)) (left reader.old)) result (λ j. Read (JudgementTree (read_judgement j))) }
{
    let obj = reader.expr()?;
    match judged_family(reader) {
        Ok(fam) => Ok(Judgement { obj, fam }),
        Err(fault) => {
            drop(obj);
            Err(fault)
        }
    }
}

/// Behind the object of a judgement: its family, and the end of the input.
fn judged_family(reader: &mut Reader) -> Result<Expr, ReadFault>
    ensures { (object : trees.Expr) → Goes (answer_on (Expect ColonSign (at_expr 1 (Ends (FamilyOf object)))) (left reader.old)) result (λ fam. Read (JudgementTree (record { object = object; family = read_expr fam }))) }
{
    reader.expect(Sign::Colon)?;
    let fam = reader.expr()?;
    match reader.finish() {
        Ok(()) => Ok(fam),
        Err(fault) => {
            drop(fam);
            Err(fault)
        }
    }
}

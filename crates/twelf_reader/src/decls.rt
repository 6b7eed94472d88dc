//! Declarations of theories.
ghost use Rattle.std.specs.Prelude.{◌≡◌, ◌∷◌, ◌++◌, ◌<◌, ◌≤◌, [], List, length, OnOk, true};
ghost use Rattle.std.specs.Option.{option_map};
ghost use Rattle.text_meaning.specs.Trees as trees;
ghost use Rattle.text_meaning.specs.Parsing.{AfterDomain, AtDecl, ExpectName, Simple, answer_on, as_written, class_ends};
ghost use Rattle.mmt_syntax.specs.Readings.{read_assigns, read_decl, read_decls, read_expr};
ghost use Rattle.twelf_expressions.specs.Signs.{is_name};
ghost use Rattle.twelf_expressions.specs.Left.{left, next_kind};
ghost use Rattle.twelf_expressions.specs.Going.{Goes, answer_with};
ghost use Rattle.twelf_reader.specs.Items.{next_decl, struct_named, theory_ends};

use crate::assigns::assigns;
use crate::heads::name_behind;
use mmt_syntax::{Assigns, Decl, Decls, Expr, StructDecl};
use twelf_expressions::{ReadFault, Reader, Spot};
use twelf_lexer::{PercentWord, Sign};

/// Declarations, and the brace that ends them.
pub(crate) fn decls(reader: &mut Reader) -> Result<Decls, ReadFault>
    ensures goes { (sig : Simple) → Goes (answer_on (AtDecl sig []) (left reader.old)) result (λ ds. answer_on (theory_ends sig (read_decls ds)) (left reader.new)) }
    ensures less { OnOk result (length (left reader.new) ≤ length (left reader.old)) }
{
    let mut decls = Decls::new(reader.alloc);
    while let Some(decl) = decl(reader)? {
        decls.add(decl)?;
    }
    Ok(decls)
}

/// The next declaration. None where the brace that ends them was taken instead.
fn decl(reader: &mut Reader) -> Result<Option<Decl>, ReadFault>
    ensures goes { (sig : Simple) (ds : List trees.Decl) → Goes (answer_on (AtDecl sig ds) (left reader.old)) result (λ d. answer_on (next_decl sig ds d) (left reader.new)) }
    ensures less { OnOk result (length (left reader.new) < length (left reader.old)) }
{
    match reader.ahead() {
        Sign::Percent(PercentWord::Include) => {
            reader.take(Sign::Percent(PercentWord::Include));
            let theory = reader.name()?;
            reader.expect(Sign::Dot)?;
            Ok(Some(Decl::Include(theory)))
        }
        Sign::Percent(PercentWord::Struct) => {
            reader.take(Sign::Percent(PercentWord::Struct));
            let decl = structure(reader)?;
            Ok(Some(decl))
        }
        Sign::RBrace => {
            reader.take(Sign::RBrace);
            Ok(None)
        }
        Sign::Name => {
            let decl = constant(reader)?;
            Ok(Some(decl))
        }
        _ => Err(reader.refuse(Spot::Item)),
    }
}

/// Behind `%struct`.
fn structure(reader: &mut Reader) -> Result<Decl, ReadFault>
    ensures goes { (sig : Simple) (ds : List trees.Decl) → Goes
        (answer_on (ExpectName (struct_named sig ds)) (left reader.old))
        result (λ d. answer_on (AtDecl sig (ds ++ read_decl d ∷ [])) (left reader.new)) }
    ensures less { OnOk result (length (left reader.new) ≤ length (left reader.old)) }
{
    let name = reader.name()?;
    let domain = name_behind(reader, Sign::Colon)?;
    let assigns = struct_body(reader)?;
    Ok(Decl::Struct(StructDecl {
        name,
        domain,
        assigns,
    }))
}

/// Behind the domain of a structure: its assignments, if there are any, and the dot.
fn struct_body(reader: &mut Reader) -> Result<Assigns, ReadFault>
    ensures goes { (sig : Simple) (ds : List trees.Decl) (y z : Simple) → Goes (answer_on (AfterDomain sig ds y z) (left reader.old))
        result (λ xs. answer_on (AtDecl sig (ds ++ trees.StructDecl (as_written y) (as_written z) (read_assigns xs) ∷ [])) (left reader.new)) }
    ensures less { OnOk result (length (left reader.new) ≤ length (left reader.old)) }
{
    match reader.ahead() {
        Sign::Dot => {
            reader.take(Sign::Dot);
            Ok(Assigns::new(reader.alloc))
        }
        Sign::Equal => {
            reader.take(Sign::Equal);
            reader.expect(Sign::LBrace)?;
            let assigns = assigns(reader)?;
            reader.expect(Sign::Dot)?;
            Ok(assigns)
        }
        _ => Err(reader.refuse(Spot::Elsewhere)),
    }
}

/// At the name of a constant.
fn constant(reader: &mut Reader) -> Result<Decl, ReadFault>
    requires { is_name (next_kind (left reader.old)) ≡ true }
    ensures goes { (sig : Simple) (ds : List trees.Decl) → Goes (answer_on (AtDecl sig ds) (left reader.old)) result (λ d. answer_on (AtDecl sig (ds ++ read_decl d ∷ [])) (left reader.new)) }
    ensures less { OnOk result (length (left reader.new) < length (left reader.old)) }
{
    let name = reader.take_simple()?;
    reader.expect(Sign::Colon)?;
    let class = reader.expr()?;
    let value = value(reader)?;
    Ok(Decl::Const { name, class, value })
}

/// Behind the class of a constant: its value, if there is one, and the dot.
fn value(reader: &mut Reader) -> Result<Option<Expr>, ReadFault>
    ensures goes { (sig : Simple) (ds : List trees.Decl) (c : Simple) (e : trees.Expr) → Goes (answer_with (λ t. class_ends sig ds c e t.kind) (left reader.old))
        result (λ v. answer_on (AtDecl sig (ds ++ trees.ConstDecl (as_written c) e (option_map read_expr v) ∷ [])) (left reader.new)) }
    ensures less { OnOk result (length (left reader.new) ≤ length (left reader.old)) }
{
    match reader.ahead() {
        Sign::Dot => {
            reader.take(Sign::Dot);
            Ok(None)
        }
        Sign::Equal => {
            reader.take(Sign::Equal);
            let value = reader.expr()?;
            reader.expect(Sign::Dot)?;
            Ok(Some(value))
        }
        _ => Err(reader.refuse_behind()),
    }
}

//! Assignments of structures and views.
ghost use Rattle.std.specs.Prelude.{◌≡◌, ◌∷◌, ◌++◌, ◌<◌, ◌≤◌, [], List, length, OnOk, true};
ghost use Rattle.text_meaning.specs.Tokens.{AssignSign};
ghost use Rattle.text_meaning.specs.Trees as trees;
ghost use Rattle.text_meaning.specs.Parsing.{AtAssign, Expect, ExpectPath, Owner, answer_on, at_morph, close_owner};
ghost use Rattle.mmt_syntax.specs.Readings.{read_assign, read_assigns};
ghost use Rattle.twelf_expressions.specs.Signs.{is_path};
ghost use Rattle.twelf_expressions.specs.Left.{left, next_kind};
ghost use Rattle.twelf_expressions.specs.Going.{Goes};
ghost use Rattle.twelf_reader.specs.Items.{next_assign};

use crate::words::morph;
use mmt_syntax::{Assign, Assigns};
use twelf_expressions::{ReadFault, Reader, Spot};
use twelf_lexer::{PercentWord, Sign};

/// Assignments, and the brace that ends them.
pub(crate) fn assigns(reader: &mut Reader) -> Result<Assigns, ReadFault>
    ensures goes { (o : Owner) → Goes (answer_on (AtAssign o []) (left reader.old)) result (λ xs. answer_on (close_owner o (read_assigns xs)) (left reader.new)) }
    ensures less { OnOk result (length (left reader.new) ≤ length (left reader.old)) }
{
    let mut assigns = Assigns::new(reader.alloc);
    while let Some(assign) = assign(reader)? {
        assigns.add(assign)?;
    }
    Ok(assigns)
}

/// The next assignment. None where the brace that ends them was taken instead.
fn assign(reader: &mut Reader) -> Result<Option<Assign>, ReadFault>
    ensures goes { (o : Owner) (xs : List trees.Assign) → Goes (answer_on (AtAssign o xs) (left reader.old)) result (λ x. answer_on (next_assign o xs x) (left reader.new)) }
    ensures less { OnOk result (length (left reader.new) < length (left reader.old)) }
{
    match reader.ahead() {
        Sign::Percent(PercentWord::Include) => {
            reader.take(Sign::Percent(PercentWord::Include));
            let morph = morph(reader)?;
            Ok(Some(Assign::Include(morph)))
        }
        Sign::Percent(PercentWord::Struct) => {
            reader.take(Sign::Percent(PercentWord::Struct));
            let assign = struct_assign(reader)?;
            Ok(Some(assign))
        }
        Sign::RBrace => {
            reader.take(Sign::RBrace);
            Ok(None)
        }
        Sign::Name | Sign::Path => {
            let assign = const_assign(reader)?;
            Ok(Some(assign))
        }
        _ => Err(reader.refuse(Spot::Item)),
    }
}

/// Behind `%struct`.
fn struct_assign(reader: &mut Reader) -> Result<Assign, ReadFault>
    ensures goes { (o : Owner) (xs : List trees.Assign) → Goes
        (answer_on (ExpectPath (λ t. Expect AssignSign (at_morph (λ ws. AtAssign o (xs ++ trees.StructAssign t ws ∷ []))))) (left reader.old))
        result (λ x. answer_on (AtAssign o (xs ++ read_assign x ∷ [])) (left reader.new)) }
    ensures less { OnOk result (length (left reader.new) ≤ length (left reader.old)) }
{
    let target = reader.path()?;
    reader.expect(Sign::Assign)?;
    let morph = morph(reader)?;
    Ok(Assign::Struct { target, morph })
}

/// At the path of a constant.
fn const_assign(reader: &mut Reader) -> Result<Assign, ReadFault>
    requires { is_path (next_kind (left reader.old)) ≡ true }
    ensures goes { (o : Owner) (xs : List trees.Assign) → Goes (answer_on (AtAssign o xs) (left reader.old)) result (λ x. answer_on (AtAssign o (xs ++ read_assign x ∷ [])) (left reader.new)) }
    ensures less { OnOk result (length (left reader.new) < length (left reader.old)) }
{
    let target = reader.take_path()?;
    reader.expect(Sign::Assign)?;
    let value = reader.expr()?;
    reader.expect(Sign::Dot)?;
    Ok(Assign::Const { target, value })
}

//! The names that stand in assignments.
ghost use Rattle.std.specs.Prelude.{◌≡◌, ◌∷◌, ◌++◌, ◌<◌, ◌≤◌, [], List, None, flat_map, length, true, OnOk};
ghost use Rattle.text_meaning.specs.Tokens.{AssignSign};
ghost use Rattle.text_meaning.specs.Trees as trees;
ghost use Rattle.text_meaning.specs.Trees.{ConstAssign};
ghost use Rattle.text_meaning.specs.Parsing.{AtAssign, Expect, ExpectPath, Owner, answer_on, at_morph, close_owner};
ghost use Rattle.text_meaning.specs.Dependencies as meaning;
ghost use Rattle.mmt_syntax.specs.DependenciesLeft.{own_name};
ghost use Rattle.twelf_expressions.specs.Signs.{is_path};
ghost use Rattle.twelf_expressions.specs.Left.{left, next_kind};
ghost use Rattle.twelf_expressions.specs.Outlines.{Passes};
ghost use Rattle.twelf_reader.specs.Dependencies.{Adds, AddsOrEnds};

use crate::dependency_words::add_morph;
use lf_terms::{Name, Names};
use twelf_expressions::{ReadFault, Reader, Spot};
use twelf_lexer::{PercentWord, Sign};

/// Assignments, and the brace that ends them, in a theory of this name or in a view.
pub(crate) fn add_assigns(
    reader: &mut Reader,
    own: Option<&Name>,
    names: &mut Names,
) -> Result<(), ReadFault>
    ensures goes { (o : Owner) → Passes (answer_on (AtAssign o []) (left reader.old)) result
        (λ _. Adds (answer_on (AtAssign o []) (left reader.old)) (λ xs. answer_on (close_owner o xs) (left reader.new)) (flat_map (meaning.assign_dependencies (own_name own.entry) None [])) names.old names.new) }
    ensures less { OnOk result (length (left reader.new) ≤ length (left reader.old)) }
{
    while add_assign(reader, own, names)? {}
    Ok(())
}

/// The next assignment, or the brace that ends them. It tells whether it was an assignment.
fn add_assign(reader: &mut Reader, own: Option<&Name>, names: &mut Names) -> Result<bool, ReadFault>
    ensures goes { (o : Owner) (xs : List trees.Assign) → Passes (answer_on (AtAssign o xs) (left reader.old)) result
        (AddsOrEnds (answer_on (AtAssign o xs) (left reader.old)) (λ x. answer_on (AtAssign o (xs ++ x ∷ [])) (left reader.new)) (answer_on (close_owner o xs) (left reader.new)) (meaning.assign_dependencies (own_name own.entry) None []) names.old names.new) }
    ensures less { OnOk result (length (left reader.new) < length (left reader.old)) }
{
    match reader.ahead() {
        Sign::Percent(PercentWord::Include) => {
            reader.take(Sign::Percent(PercentWord::Include));
            add_morph(reader, own, names)?;
            Ok(true)
        }
        Sign::Percent(PercentWord::Struct) => {
            reader.take(Sign::Percent(PercentWord::Struct));
            add_struct_assign(reader, own, names)?;
            Ok(true)
        }
        Sign::RBrace => {
            reader.take(Sign::RBrace);
            Ok(false)
        }
        Sign::Name | Sign::Path => {
            pass_const_assign(reader)?;
            Ok(true)
        }
        _ => Err(reader.refuse(Spot::Item)),
    }
}

/// Behind `%struct`.
fn add_struct_assign(
    reader: &mut Reader,
    own: Option<&Name>,
    names: &mut Names,
) -> Result<(), ReadFault>
    ensures goes { (o : Owner) (xs : List trees.Assign) → Passes
        (answer_on (ExpectPath (λ t. Expect AssignSign (at_morph (λ ws. AtAssign o (xs ++ trees.StructAssign t ws ∷ []))))) (left reader.old)) result
        (λ _. Adds (answer_on (ExpectPath (λ t. Expect AssignSign (at_morph (λ ws. AtAssign o (xs ++ trees.StructAssign t ws ∷ []))))) (left reader.old)) (λ x. answer_on (AtAssign o (xs ++ x ∷ [])) (left reader.new)) (meaning.assign_dependencies (own_name own.entry) None []) names.old names.new) }
    ensures less { OnOk result (length (left reader.new) ≤ length (left reader.old)) }
{
    if !reader.sees_path() {
        return Err(reader.refuse(Spot::Elsewhere));
    }
    reader.skip_path();
    reader.expect(Sign::Assign)?;
    add_morph(reader, own, names)
}

/// At the path of a constant.
fn pass_const_assign(reader: &mut Reader) -> Result<(), ReadFault>
    requires { is_path (next_kind (left reader.old)) ≡ true }
    ensures goes { (o : Owner) (xs : List trees.Assign) → Passes (answer_on (AtAssign o xs) (left reader.old)) result
        (λ _. (t : trees.Written) × (e : trees.Expr) × (answer_on (AtAssign o xs) (left reader.old) ≡ answer_on (AtAssign o (xs ++ ConstAssign t e ∷ [])) (left reader.new))) }
    ensures less { OnOk result (length (left reader.new) < length (left reader.old)) }
{
    reader.skip_path();
    reader.expect(Sign::Assign)?;
    reader.pass_expr()?;
    reader.expect(Sign::Dot)?;
    Ok(())
}

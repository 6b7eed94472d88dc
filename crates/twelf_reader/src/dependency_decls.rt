//! The names that stand in declarations.
ghost use Rattle.std.specs.Prelude.{◌≡◌, ◌∷◌, ◌++◌, ◌<◌, ◌≤◌, [], List, None, Some, Option, flat_map, length, true, false, OnOk};
ghost use Rattle.text_meaning.specs.Trees as trees;
ghost use Rattle.text_meaning.specs.Trees.{ConstDecl};
ghost use Rattle.text_meaning.specs.Parsing.{AfterDomain, AtDecl, ExpectName, Simple, State, answer_on, as_written, class_ends, is_refused};
ghost use Rattle.text_meaning.specs.Dependencies as meaning;
ghost use Rattle.twelf_expressions.specs.Signs.{is_name};
ghost use Rattle.twelf_expressions.specs.Left.{left, next_kind};
ghost use Rattle.twelf_expressions.specs.Going.{answer_with};
ghost use Rattle.twelf_expressions.specs.Outlines.{Passes};
ghost use Rattle.twelf_reader.specs.Dependencies.{Adds, AddsOrEnds};
ghost use Rattle.twelf_reader.specs.Items.{struct_named, theory_ends};

use crate::dependency_assigns::add_assigns;
use crate::dependency_words::add_first;
use crate::heads::name_behind;
use lf_terms::{Name, Names};
use twelf_expressions::{ReadFault, Reader, Spot};
use twelf_lexer::{PercentWord, Sign};

/// Declarations of a theory of this name, and the brace that ends them.
pub(crate) fn add_decls(reader: &mut Reader, own: &Name, names: &mut Names) -> Result<(), ReadFault>
    ensures goes { (sig : Simple) → Passes (answer_on (AtDecl sig []) (left reader.old)) result
        (λ _. Adds (answer_on (AtDecl sig []) (left reader.old)) (λ ds. answer_on (theory_ends sig ds) (left reader.new)) (flat_map (meaning.decl_dependencies own.now)) names.old names.new) }
    ensures less { OnOk result (length (left reader.new) ≤ length (left reader.old)) }
{
    while add_decl(reader, own, names)? {}
    Ok(())
}

/// The next declaration, or the brace that ends them. It tells whether it was a declaration.
fn add_decl(reader: &mut Reader, own: &Name, names: &mut Names) -> Result<bool, ReadFault>
    ensures goes { (sig : Simple) (ds : List trees.Decl) → Passes (answer_on (AtDecl sig ds) (left reader.old)) result
        (AddsOrEnds (answer_on (AtDecl sig ds) (left reader.old)) (λ d. answer_on (AtDecl sig (ds ++ d ∷ [])) (left reader.new)) (answer_on (theory_ends sig ds) (left reader.new)) (meaning.decl_dependencies own.now) names.old names.new) }
    ensures less { OnOk result (length (left reader.new) < length (left reader.old)) }
{
    match reader.ahead() {
        Sign::Percent(PercentWord::Include) => {
            reader.take(Sign::Percent(PercentWord::Include));
            let theory = reader.name()?;
            add_first(reader, names, &theory)?;
            reader.expect(Sign::Dot)?;
            Ok(true)
        }
        Sign::Percent(PercentWord::Struct) => {
            reader.take(Sign::Percent(PercentWord::Struct));
            add_structure(reader, own, names)?;
            Ok(true)
        }
        Sign::RBrace => {
            reader.take(Sign::RBrace);
            Ok(false)
        }
        Sign::Name => {
            pass_constant(reader)?;
            Ok(true)
        }
        _ => Err(reader.refuse(Spot::Item)),
    }
}

/// Behind `%struct`.
fn add_structure(reader: &mut Reader, own: &Name, names: &mut Names) -> Result<(), ReadFault>
    ensures goes { (sig : Simple) (ds : List trees.Decl) → Passes (answer_on (ExpectName (struct_named sig ds)) (left reader.old)) result
        (λ _. Adds (answer_on (ExpectName (struct_named sig ds)) (left reader.old)) (λ d. answer_on (AtDecl sig (ds ++ d ∷ [])) (left reader.new)) (meaning.decl_dependencies own.now) names.old names.new) }
    ensures less { OnOk result (length (left reader.new) ≤ length (left reader.old)) }
{
    pass_name(reader)?;
    let domain = name_behind(reader, Sign::Colon)?;
    add_first(reader, names, &domain)?;
    add_struct_body(reader, own, names)
}

/// Takes a name, which must come.
pub(crate) fn pass_name(reader: &mut Reader) -> Result<(), ReadFault>
    ensures goes { (f : Simple → State) → ((x : Simple) → is_refused (f x) ≡ false) → Passes (answer_on (ExpectName f) (left reader.old)) result
        (λ _. (x : Simple) × (answer_on (ExpectName f) (left reader.old) ≡ answer_on (f x) (left reader.new))) }
    ensures less { OnOk result (length (left reader.new) < length (left reader.old)) }
{
    if !reader.sees_name() {
        return Err(reader.refuse(Spot::Elsewhere));
    }
    reader.skip_name();
    Ok(())
}

/// Behind the domain of a structure: its assignments, if there are any, and the dot.
fn add_struct_body(reader: &mut Reader, own: &Name, names: &mut Names) -> Result<(), ReadFault>
    ensures goes { (sig : Simple) (ds : List trees.Decl) (y z : Simple) → Passes (answer_on (AfterDomain sig ds y z) (left reader.old)) result
        (λ _. Adds (answer_on (AfterDomain sig ds y z) (left reader.old)) (λ xs. answer_on (AtDecl sig (ds ++ trees.StructDecl (as_written y) (as_written z) xs ∷ [])) (left reader.new)) (flat_map (meaning.assign_dependencies (Some own.now) None [])) names.old names.new) }
    ensures less { OnOk result (length (left reader.new) ≤ length (left reader.old)) }
{
    match reader.ahead() {
        Sign::Dot => {
            reader.take(Sign::Dot);
            Ok(())
        }
        Sign::Equal => {
            reader.take(Sign::Equal);
            reader.expect(Sign::LBrace)?;
            add_assigns(reader, Some(own), names)?;
            reader.expect(Sign::Dot)?;
            Ok(())
        }
        _ => Err(reader.refuse(Spot::Elsewhere)),
    }
}

/// At the name of a constant.
fn pass_constant(reader: &mut Reader) -> Result<(), ReadFault>
    requires { is_name (next_kind (left reader.old)) ≡ true }
    ensures goes { (sig : Simple) (ds : List trees.Decl) → Passes (answer_on (AtDecl sig ds) (left reader.old)) result
        (λ _. (c : trees.Written) × (e : trees.Expr) × (v : Option trees.Expr) × (answer_on (AtDecl sig ds) (left reader.old) ≡ answer_on (AtDecl sig (ds ++ ConstDecl c e v ∷ [])) (left reader.new))) }
    ensures less { OnOk result (length (left reader.new) < length (left reader.old)) }
{
    reader.skip_name();
    reader.expect(Sign::Colon)?;
    reader.pass_expr()?;
    pass_value(reader)
}

/// Behind the class of a constant: its value, if there is one, and the dot.
fn pass_value(reader: &mut Reader) -> Result<(), ReadFault>
    ensures goes { (sig : Simple) (ds : List trees.Decl) (c : Simple) (e : trees.Expr) → Passes (answer_with (λ t. class_ends sig ds c e t.kind) (left reader.old)) result
        (λ _. (v : Option trees.Expr) × (answer_with (λ t. class_ends sig ds c e t.kind) (left reader.old) ≡ answer_on (AtDecl sig (ds ++ ConstDecl (as_written c) e v ∷ [])) (left reader.new))) }
    ensures less { OnOk result (length (left reader.new) ≤ length (left reader.old)) }
{
    match reader.ahead() {
        Sign::Dot => {
            reader.take(Sign::Dot);
            Ok(())
        }
        Sign::Equal => {
            reader.take(Sign::Equal);
            reader.pass_expr()?;
            reader.expect(Sign::Dot)?;
            Ok(())
        }
        _ => Err(reader.refuse_behind()),
    }
}

//! The names on which a text depends, read without a tree.
ghost use Rattle.std.specs.Prelude.{◌≡◌, ◌≤◌, ◌^◌, [], None, flat_map, length, IfErr, IfOk};
ghost use Rattle.text_meaning.specs.Trees as trees;
ghost use Rattle.text_meaning.specs.Reading.{Answer, ModuleText, ModuleTree, Read, Reads};
ghost use Rattle.text_meaning.specs.TextAnswers.{read};
ghost use Rattle.text_meaning.specs.Parsing.{AtModule, ExpectName, Simple, answer_on, as_written};
ghost use Rattle.text_meaning.specs.Dependencies.{assign_dependencies, module_dependencies};
ghost use Rattle.twelf_expressions.specs.Left.{left};
ghost use Rattle.twelf_expressions.specs.Outlines.{Passes};
ghost use Rattle.twelf_reader.specs.Answers.{IsFaultOf};
ghost use Rattle.twelf_reader.specs.Dependencies.{Adds, module_read, names_in};
ghost use Rattle.twelf_reader.specs.Items.{theory_named, view_named, view_to};

use crate::dependency_assigns::add_assigns;
use crate::dependency_decls::{add_decls, pass_name};
use crate::dependency_words::add_first;
use crate::heads::{end_text, name_behind, open_body};
use crate::texts::{in_utf8, settled};
use lf_terms::Names;
use mmt_syntax::first_name;
use std::alloc::Global;
use twelf_expressions::{ReadFault, Reader, Spot};
use twelf_lexer::{PercentWord, Sign};

/// The names on which the one module depends that a text of at most 2^26 bytes spells, at a nesting of at most 500: in
/// the order of the text, with repeats. It answers them exactly where `read_module` may answer a tree, and `Syntax`,
/// `TooDeep` or `Unsupported` at a place exactly where the text has this fault there; but it may answer `Memory` for
/// any text. It makes no tree: expressions are passed over, and what takes memory is the names and the brackets that
/// are open at once.
pub fn read_dependencies(alloc: Global, text: &[u8]) -> Result<Names, ReadFault>
    requires small { length text.now ≤ 2 ^ 26 }
    ensures ok { IfOk result (λ names. (tree : trees.Module) × Reads ModuleText text.now (Read (ModuleTree tree)) × (names ≡ names_in (module_dependencies tree))) }
    ensures fault { IfErr result (λ fault. IsFaultOf ModuleText text.now fault) }
    ensures only { (answer : Answer) → Reads ModuleText text.now answer → Passes answer result (λ names. (tree : trees.Module) × (answer ≡ Read (ModuleTree tree)) × (names ≡ names_in (module_dependencies tree))) }
{
    let text = in_utf8(text)?;
    dependencies(alloc, text)
}

/// The same of a text that is UTF-8.
fn dependencies(alloc: Global, text: &str) -> Result<Names, ReadFault>
    requires small { length text.now ≤ 2 ^ 26 }
    ensures { Passes (read ModuleText text.now) result (λ names. Adds (read ModuleText text.now) module_read module_dependencies [] names) }
{
    let mut reader = Reader::new(alloc, text);
    let mut names = Names::new(alloc);
    match add_module(&mut reader, &mut names) {
        Ok(()) => Ok(names),
        Err(fault) => {
            drop(names);
            Err(settled(text, fault))
        }
    }
}

/// A module and nothing else.
fn add_module(reader: &mut Reader, names: &mut Names) -> Result<(), ReadFault>
    ensures { Passes (answer_on AtModule (left reader.old)) result (λ _. Adds (answer_on AtModule (left reader.old)) module_read module_dependencies names.old names.new) }
{
    match reader.ahead() {
        Sign::Percent(PercentWord::Sig) => {
            reader.take(Sign::Percent(PercentWord::Sig));
            add_theory(reader, names)
        }
        Sign::Percent(PercentWord::View) => {
            reader.take(Sign::Percent(PercentWord::View));
            add_view(reader, names)
        }
        _ => Err(reader.refuse(Spot::Elsewhere)),
    }
}

/// Behind `%sig`.
fn add_theory(reader: &mut Reader, names: &mut Names) -> Result<(), ReadFault>
    ensures { Passes (answer_on (ExpectName theory_named) (left reader.old)) result (λ _. Adds (answer_on (ExpectName theory_named) (left reader.old)) module_read module_dependencies names.old names.new) }
{
    let name = reader.name()?;
    open_body(reader)?;
    add_decls(reader, first_name(&name), names)?;
    end_text(reader)?;
    Ok(())
}

/// Behind `%view`.
fn add_view(reader: &mut Reader, names: &mut Names) -> Result<(), ReadFault>
    ensures { Passes (answer_on (ExpectName view_named) (left reader.old)) result (λ _. Adds (answer_on (ExpectName view_named) (left reader.old)) module_read module_dependencies names.old names.new) }
{
    pass_name(reader)?;
    let domain = name_behind(reader, Sign::Colon)?;
    add_first(reader, names, &domain)?;
    let codomain = name_behind(reader, Sign::Arrow)?;
    add_first(reader, names, &codomain)?;
    add_view_body(reader, names)
}

/// Behind the codomain of a view: its assignments, and the end of the input.
fn add_view_body(reader: &mut Reader, names: &mut Names) -> Result<(), ReadFault>
    ensures { (x y z : Simple) → Passes (answer_on (view_to x y z) (left reader.old)) result
        (λ _. Adds (answer_on (view_to x y z) (left reader.old)) (λ xs. module_read (trees.ViewModule (as_written x) (as_written y) (as_written z) xs)) (flat_map (assign_dependencies None None [])) names.old names.new) }
{
    open_body(reader)?;
    add_assigns(reader, None, names)?;
    end_text(reader)?;
    Ok(())
}

//! The calls that read a text.
ghost use Rattle.std.specs.Prelude.{◌≡◌, ◌≤◌, ◌^◌, ℕ, length, IfErr, IfOk};
ghost use Rattle.text_meaning.specs.Cut.{Finished, Unclosed};
ghost use Rattle.text_meaning.specs.Cutting.{Between, cut_on};
ghost use Rattle.text_meaning.specs.Reading.{Answer, JudgementText, JudgementTree, ModuleText, ModuleTree, Read, Reads};
ghost use Rattle.text_meaning.specs.TextAnswers.{read};
ghost use Rattle.mmt_syntax.specs.Readings as syntax;
ghost use Rattle.twelf_expressions.specs.Going.{Goes};
ghost use Rattle.twelf_expressions.specs.declared.fault.ReadFault.TheVariants as faults;
ghost use Rattle.twelf_reader.specs.Answers.{IsFaultOf, IsNoText};

use crate::modules::{whole_judgement, whole_module};
use mmt_syntax::{Judgement, Module};
use std::alloc::Global;
use twelf_expressions::{ReadFault, Reader};
use twelf_lexer::open_comment;

/// The one module that a text of at most 2^26 bytes spells, at a nesting of at most 500. It answers the tree exactly
/// where the text has this reading, and `Syntax`, `TooDeep` or `Unsupported` at a place exactly where the text has
/// this fault there; but it may answer `Memory` for any text.
pub fn read_module(alloc: Global, text: &[u8]) -> Result<Module, ReadFault>
    requires small { length text.now ≤ 2 ^ 26 }
    ensures ok { IfOk result (λ m. Reads ModuleText text.now (Read (ModuleTree (syntax.read_module m)))) }
    ensures fault { IfErr result (λ fault. IsFaultOf ModuleText text.now fault) }
    ensures only { (answer : Answer) → Reads ModuleText text.now answer → Goes answer result (λ m. Read (ModuleTree (syntax.read_module m))) }
{
    let text = in_utf8(text)?;
    module(alloc, text)
}

/// The one judgement that a text of at most 2^26 bytes spells, `expression : expression`, at a nesting of at most
/// 500. It answers the tree exactly where the text has this reading, and `Syntax`, `TooDeep` or `Unsupported` at a
/// place exactly where the text has this fault there; but it may answer `Memory` for any text.
pub fn read_judgement(alloc: Global, text: &[u8]) -> Result<Judgement, ReadFault>
    requires small { length text.now ≤ 2 ^ 26 }
    ensures ok { IfOk result (λ j. Reads JudgementText text.now (Read (JudgementTree (syntax.read_judgement j)))) }
    ensures fault { IfErr result (λ fault. IsFaultOf JudgementText text.now fault) }
    ensures only { (answer : Answer) → Reads JudgementText text.now answer → Goes answer result (λ j. Read (JudgementTree (syntax.read_judgement j))) }
{
    let text = in_utf8(text)?;
    judgement(alloc, text)
}

/// The same text, if it is UTF-8.
pub(crate) fn in_utf8(text: &[u8]) -> Result<&str, ReadFault>
    requires small { length text.now ≤ 2 ^ 26 }
    ensures ok { IfOk result (λ same. same.now ≡ text.now) }
    ensures fault { IfErr result (λ fault. IsNoText text.now fault) }
{
    match str::from_utf8(text) {
        Ok(text) => Ok(text),
        Err(error) => Err(ReadFault::Syntax {
            at: error.valid_up_to() as u32,
        }),
    }
}

/// The module of a text that is UTF-8.
fn module(alloc: Global, text: &str) -> Result<Module, ReadFault>
    requires small { length text.now ≤ 2 ^ 26 }
    ensures { Goes (read ModuleText text.now) result (λ m. Read (ModuleTree (syntax.read_module m))) }
{
    let mut reader = Reader::new(alloc, text);
    match whole_module(&mut reader) {
        Ok(module) => Ok(module),
        Err(fault) => Err(settled(text, fault)),
    }
}

/// The judgement of a text that is UTF-8.
fn judgement(alloc: Global, text: &str) -> Result<Judgement, ReadFault>
    requires small { length text.now ≤ 2 ^ 26 }
    ensures { Goes (read JudgementText text.now) result (λ j. Read (JudgementTree (syntax.read_judgement j))) }
{
    let mut reader = Reader::new(alloc, text);
    match whole_judgement(&mut reader) {
        Ok(judgement) => Ok(judgement),
        Err(fault) => Err(settled(text, fault)),
    }
}

/// The fault of a text that does not read. A comment without an end comes before what a reader finds.
pub(crate) fn settled(text: &str, fault: ReadFault) -> ReadFault
    requires small { length text.now ≤ 2 ^ 26 }
    ensures unclosed { (at : ℕ) → (cut_on Between 0 text.now).ending ≡ Unclosed at → result ≡ faults.Syntax at }
    ensures finished { (end : ℕ) → (cut_on Between 0 text.now).ending ≡ Finished end → result ≡ fault }
{
    match open_comment(text) {
        Some(at) => ReadFault::Syntax { at },
        None => fault,
    }
}

//! Modules, their declarations and assignments.
ghost use Rattle.std.specs.Prelude.{◌≡◌, ◌++◌, IfOk, OnOk, flat_map};
ghost use Rattle.std.specs.Option.{option_map};
ghost use Rattle.mmt_syntax.specs.Readings.{read_morph, read_assign, read_assigns, read_decl, read_decls, read_expr, read_module, read_written};
ghost use Rattle.print_meaning.specs.PrintedItems.{text_of};
ghost use Rattle.print_meaning.specs.PrintedModules.{assign_items, decl_items, module_text};
ghost use Rattle.twelf_print.specs.Fronts.{module_front, view_front, decls_text, words_text, assign_front, decl_front, constant_text, structure_text};
ghost use Rattle.print_laws.specs.PrintLaws.{IsSpelledModule, SpellsBack};
ghost use Rattle.parentheses_laws.specs.FewestParentheses.{HasFewestOfModule};

use crate::expressions::expression;
use crate::paths::path;
use lf_terms::{Bytes, Memory};
use mmt_syntax::{Assign, Assigns, Decl, Decls, Expr, Module, Morph, StructDecl, ViewDecl};
use std::alloc::Global;

/// The text of a module. Wherever the module is one that some text spells, this text spells it up to spans, no text
/// that spells it has fewer parentheses, and it is read again as that module where nothing in it stands deeper than
/// 500.
pub fn print_module(alloc: Global, module: &Module) -> Result<Bytes, Memory>
    ensures text { IfOk result (λ text. text ≡ module_text (read_module «module».now)) }
    ensures spells { IfOk result (λ text. IsSpelledModule (read_module «module».now) → SpellsBack text (read_module «module».now)) }
    ensures fewest { IfOk result (λ text. IsSpelledModule (read_module «module».now) → HasFewestOfModule text (read_module «module».now)) }
{
    let mut out = Bytes::new(alloc);
    front(&mut out, module)?;
    out.extend(b"}.\n")?;
    Ok(out)
}

/// A module up to its closing brace.
fn front(out: &mut Bytes, module: &Module) -> Result<(), Memory>
    ensures ok { OnOk result (out.new ≡ out.old ++ module_front (read_module «module».now)) }
{
    match module {
        Module::Sig { name, decls } => {
            out.extend(b"%sig ")?;
            path(out, &name.path, b" ")?;
            out.extend(b"= {\n")?;
            declarations(out, decls)
        }
        Module::View(decl) => view(out, decl),
    }
}

fn view(out: &mut Bytes, view: &ViewDecl) -> Result<(), Memory>
    ensures ok { OnOk result (out.new ≡ out.old ++ view_front (read_written view.now.name) (read_written view.now.domain) (read_written view.now.codomain) (read_assigns view.now.assigns)) }
{
    out.extend(b"%view ")?;
    path(out, &view.name.path, b" ")?;
    out.extend(b": ")?;
    path(out, &view.domain.path, b" ")?;
    out.extend(b"-> ")?;
    path(out, &view.codomain.path, b" ")?;
    out.extend(b"= {\n")?;
    assignments(out, &view.assigns, b"\n")
}

fn declarations(out: &mut Bytes, decls: &Decls) -> Result<(), Memory>
    ensures ok { OnOk result (out.new ≡ out.old ++ decls_text (read_decls decls.now)) }
{
    for decl in decls.as_slice() {
        declaration(out, decl)?;
    }
    Ok(())
}

fn declaration(out: &mut Bytes, decl: &Decl) -> Result<(), Memory>
    ensures ok { OnOk result (out.new ≡ out.old ++ text_of (decl_items (read_decl decl.now))) }
{
    declared(out, decl)?;
    out.extend(b".\n")
}

/// A declaration up to its dot.
fn declared(out: &mut Bytes, decl: &Decl) -> Result<(), Memory>
    ensures ok { OnOk result (out.new ≡ out.old ++ decl_front (read_decl decl.now)) }
{
    match decl {
        Decl::Include(theory) => {
            out.extend(b"%include ")?;
            path(out, &theory.path, b"")
        }
        Decl::Struct(decl) => structure(out, decl),
        Decl::Const { name, class, value } => {
            path(out, &name.path, b" ")?;
            out.extend(b": ")?;
            constant(out, class, value)
        }
    }
}

fn constant(out: &mut Bytes, class: &Expr, value: &Option<Expr>) -> Result<(), Memory>
    ensures ok { OnOk result (out.new ≡ out.old ++ constant_text (read_expr class.now) (option_map read_expr value.now)) }
{
    match value {
        None => expression(out, class, true, b""),
        Some(value) => {
            expression(out, class, true, b" ")?;
            out.extend(b"= ")?;
            expression(out, value, true, b"")
        }
    }
}

fn structure(out: &mut Bytes, decl: &StructDecl) -> Result<(), Memory>
    ensures ok { OnOk result (out.new ≡ out.old ++ structure_text (read_written decl.now.name) (read_written decl.now.domain) (read_assigns decl.now.assigns)) }
{
    out.extend(b"%struct ")?;
    path(out, &decl.name.path, b" ")?;
    out.extend(b": ")?;
    if decl.assigns.len() == 0 {
        return path(out, &decl.domain.path, b"");
    }
    path(out, &decl.domain.path, b" ")?;
    out.extend(b"= { ")?;
    assignments(out, &decl.assigns, b" ")?;
    out.extend(b"}")
}

fn assignments(out: &mut Bytes, assigns: &Assigns, gap: &[u8]) -> Result<(), Memory>
    ensures ok { OnOk result (out.new ≡ out.old ++ text_of (flat_map (assign_items gap.now) (read_assigns assigns.now))) }
{
    for assign in assigns.as_slice() {
        assignment(out, assign, gap)?;
    }
    Ok(())
}

fn assignment(out: &mut Bytes, assign: &Assign, gap: &[u8]) -> Result<(), Memory>
    ensures ok { OnOk result (out.new ≡ out.old ++ text_of (assign_items gap.now (read_assign assign.now))) }
{
    assigned(out, assign)?;
    out.extend(b".")?;
    out.extend(gap)
}

/// An assignment up to its dot.
fn assigned(out: &mut Bytes, assign: &Assign) -> Result<(), Memory>
    ensures ok { OnOk result (out.new ≡ out.old ++ assign_front (read_assign assign.now)) }
{
    match assign {
        Assign::Include(words) => {
            out.extend(b"%include ")?;
            morphism(out, words)
        }
        Assign::Struct { target, morph } => {
            out.extend(b"%struct ")?;
            path(out, &target.path, b" ")?;
            out.extend(b":= ")?;
            morphism(out, morph)
        }
        Assign::Const { target, value } => {
            path(out, &target.path, b" ")?;
            out.extend(b":= ")?;
            expression(out, value, true, b"")
        }
    }
}

fn morphism(out: &mut Bytes, morph: &Morph) -> Result<(), Memory>
    ensures ok { OnOk result (out.new ≡ out.old ++ words_text (read_morph morph.now)) }
{
    let Some((first, others)) = morph.words.as_slice().split_first() else {
        return Ok(());
    };
    path(out, &first.path, b"")?;
    for word in others {
        out.extend(b" ")?;
        path(out, &word.path, b"")?;
    }
    Ok(())
}

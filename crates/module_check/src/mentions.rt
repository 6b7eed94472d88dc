//! Where a module mentions another one that has one of some names. Names are given in byte order.
ghost use Rattle.std.specs.Prelude.{◌≡◌, ◌∷◌, [], true, flat_map};
ghost use Rattle.std.specs.Option.{option_map};
ghost use Rattle.name_meaning.specs.Names.{is_among, is_ascending};
ghost use Rattle.text_meaning.specs.Trees.{first_name};
ghost use Rattle.text_meaning.specs.Labels.{label_in};
ghost use Rattle.text_meaning.specs.Dependencies as meaning;
ghost use Rattle.mmt_syntax.specs.Readings as syntax;
ghost use Rattle.mmt_syntax.specs.Readings.{read_assign, read_assigns, read_decl, read_decls, read_words, read_written};
ghost use Rattle.mmt_syntax.specs.DependenciesLeft.{own_name};
ghost use Rattle.module_check.specs.Mentions.{first_among, read_mention};

use crate::search::contains;
use lf_terms::{Name, Names, Path};
use mmt_syntax::{Assign, Decl, Module, Written, first_name};

/// A written path that begins with the name of a module, and the label of what it stands in: a path, behind the name of a
/// structure if it is in one.
#[derive(Clone, Copy)]
pub(crate) struct Mention<'a> {
    pub written: &'a Written,
    pub structure: Option<&'a Name>,
    pub label: &'a Path,
}

/// The first mention in a module.
pub(crate) fn in_module<'a>(names: &Names, module: &'a Module) -> Option<Mention<'a>>
    requires { is_ascending names.now ≡ true }
    ensures { option_map read_mention result ≡ first_among names.now (meaning.module_dependencies (syntax.read_module «module».now)) }
{
    match module {
        Module::Sig { name, decls } => in_decls(names, first_name(name), decls.as_slice()),
        Module::View(view) => {
            let label = &view.name.path;
            if let Some(found) = at_written(names, label, &view.domain) {
                return Some(found);
            }
            if let Some(found) = at_written(names, label, &view.codomain) {
                return Some(found);
            }
            in_assigns(names, None, None, label, view.assigns.as_slice())
        }
    }
}

/// The first mention in the declarations of a theory.
fn in_decls<'a>(names: &Names, theory: &Name, decls: &'a [Decl]) -> Option<Mention<'a>>
    requires { is_ascending names.now ≡ true }
    ensures { option_map read_mention result ≡ first_among names.now (flat_map (meaning.decl_dependencies theory.now) (read_decls decls.now)) }
{
    for decl in decls {
        if let Some(found) = in_decl(names, theory, decl) {
            return Some(found);
        }
    }
    None
}

/// The first mention in a declaration.
fn in_decl<'a>(names: &Names, theory: &Name, decl: &'a Decl) -> Option<Mention<'a>>
    requires { is_ascending names.now ≡ true }
    ensures { option_map read_mention result ≡ first_among names.now (meaning.decl_dependencies theory.now (read_decl decl.now)) }
{
    match decl {
        Decl::Include(included) => at_written(names, &included.path, included),
        Decl::Struct(structure) => {
            let label = &structure.name.path;
            if let Some(found) = at_written(names, label, &structure.domain) {
                return Some(found);
            }
            let own = Some(first_name(&structure.name));
            in_assigns(
                names,
                Some(theory),
                own,
                label,
                structure.assigns.as_slice(),
            )
        }
        Decl::Const { .. } => None,
    }
}

/// The first mention in assignments.
fn in_assigns<'a>(
    names: &Names,
    theory: Option<&Name>,
    structure: Option<&'a Name>,
    label: &'a Path,
    assigns: &'a [Assign],
) -> Option<Mention<'a>>
    requires { is_ascending names.now ≡ true }
    ensures { option_map read_mention result ≡ first_among names.now (flat_map (meaning.assign_dependencies (own_name theory.entry) (own_name structure.entry) label.now) (read_assigns assigns.now)) }
{
    for assign in assigns {
        if let Some(found) = in_assign(names, theory, structure, label, assign) {
            return Some(found);
        }
    }
    None
}

/// The first mention in an assignment.
fn in_assign<'a>(
    names: &Names,
    theory: Option<&Name>,
    structure: Option<&'a Name>,
    label: &'a Path,
    assign: &'a Assign,
) -> Option<Mention<'a>>
    requires { is_ascending names.now ≡ true }
    ensures { option_map read_mention result ≡ first_among names.now (meaning.assign_dependencies (own_name theory.entry) (own_name structure.entry) label.now (read_assign assign.now)) }
{
    match assign {
        Assign::Include(morph) => in_words(names, theory, None, label, morph.words.as_slice()),
        Assign::Struct { target, morph } => {
            in_words(
                names,
                theory,
                structure,
                &target.path,
                morph.words.as_slice(),
            )
        }
        Assign::Const { .. } => None,
    }
}

/// The first mention in words.
fn in_words<'a>(
    names: &Names,
    theory: Option<&Name>,
    structure: Option<&'a Name>,
    label: &'a Path,
    words: &'a [Written],
) -> Option<Mention<'a>>
    requires { is_ascending names.now ≡ true }
    ensures { option_map read_mention result ≡ first_among names.now (flat_map (meaning.word_dependencies (own_name theory.entry) (label_in (own_name structure.entry) label.now)) (read_words words.now)) }
{
    for word in words {
        if let Some(found) = in_word(names, theory, structure, label, word) {
            return Some(found);
        }
    }
    None
}

/// The mention that a word is, unless it is about the theory's own structures.
fn in_word<'a>(
    names: &Names,
    theory: Option<&Name>,
    structure: Option<&'a Name>,
    label: &'a Path,
    word: &'a Written,
) -> Option<Mention<'a>>
    requires { is_ascending names.now ≡ true }
    ensures { option_map read_mention result ≡ first_among names.now (meaning.word_dependencies (own_name theory.entry) (label_in (own_name structure.entry) label.now) (read_written word.now)) }
{
    if is_own_word(theory, word) {
        return None;
    }
    if !is_named(names, word) {
        return None;
    }
    Some(Mention {
        written: word,
        structure,
        label,
    })
}

/// The mention that a written name is.
fn at_written<'a>(names: &Names, label: &'a Path, written: &'a Written) -> Option<Mention<'a>>
    requires { is_ascending names.now ≡ true }
    ensures { option_map read_mention result ≡ first_among names.now (meaning.at_written label.now (read_written written.now) ∷ []) }
{
    if !is_named(names, written) {
        return None;
    }
    Some(Mention {
        written,
        structure: None,
        label,
    })
}

/// Whether a word is about a structure of the theory itself.
fn is_own_word(theory: Option<&Name>, word: &Written) -> bool
    ensures { result ≡ meaning.is_own_word (own_name theory.entry) (read_written word.now).path }
{
    match theory {
        Some(theory) => word.path.len() > 1 && *theory == *first_name(word),
        None => false,
    }
}

/// Whether a written path begins with one of the names.
fn is_named(names: &Names, written: &Written) -> bool
    requires { is_ascending names.now ≡ true }
    ensures { result ≡ is_among names.now (first_name written.now.path) }
{
    contains(names, first_name(written))
}

//! What one word means.
ghost use Rattle.std.specs.Prelude.{◌≡◌};
ghost use Rattle.std.specs.Option.{option_map};
ghost use Rattle.name_meaning.specs.Names.{Path as PathOfNames};
ghost use Rattle.library_meaning.specs.Coherence.{IsCoherent};
ghost use Rattle.library_meaning.specs.Words as meant;
ghost use Rattle.library_meaning.specs.Words.{longer_word, or_unknown, simple_word};
ghost use Rattle.mmt_syntax.specs.Readings.{read_span};
ghost use Rattle.link_laws.specs.LinkTargets.{HereHolds};
ghost use Rattle.mmt_interface.specs.Readings.{environment_of, read_structures, read_theory, read_view};
ghost use Rattle.morphism_words.specs.CoherentLinks.{AreStructures};
ghost use Rattle.morphism_words.specs.LentLinks.{read_lent};
ghost use Rattle.morphism_words.specs.Steps.{Answers, known_answer, known_interface, longer_answer, word_answer};

use crate::MorphFault;
use crate::lent::{LentLink, LentMap};
use crate::structures::lent_structures_link;
use lf_terms::{Name, Span};
use mmt_interface::{Faces, Interface, Rule, Structs, TheoryFace, Verdict, ViewFace};
use mmt_syntax::Written;
use std::alloc::Global;

/// The link that a word means: a view, or structures of a theory.
pub(crate) fn word_link<'a>(
    alloc: Global,
    faces: &'a Faces,
    here: Option<&'a TheoryFace>,
    word: &'a Written,
) -> Result<LentLink<'a>, MorphFault>
    requires coherent { IsCoherent (environment_of faces.now) }
    requires here { HereHolds (environment_of faces.now) (option_map (λ face. read_theory face.now) here) }
    ensures { (label : PathOfNames) → Answers read_lent result label (word_answer (read_span word.now.span) label (meant.word_meaning (environment_of faces.now) (option_map (λ face. read_theory face.now) here.entry) word.now.path)) }
{
    match word.path.as_slice() {
        [] => Err(MorphFault::Module {
            span: word.span,
            rule: Rule::UnknownModule,
        }),
        [name] => view_word(faces, word.span, name),
        [name, path @ ..] => longer_word(alloc, faces, here, word.span, name, path),
    }
}

/// The view of a name.
fn view_word<'a>(faces: &'a Faces, span: Span, name: &Name) -> Result<LentLink<'a>, MorphFault>
    ensures { (label : PathOfNames) → Answers read_lent result label (word_answer (read_span span) label (simple_word (environment_of faces.now name.now))) }
{
    match accepted(faces, span, name)? {
        Interface::View(view) => Ok(view_link(view)),
        Interface::Theory { .. } => Err(MorphFault::Module {
            span,
            rule: Rule::WrongModuleKind,
        }),
    }
}

/// The link of structures of the theory of a name, where that is being built of those that it has so far.
fn longer_word<'a>(
    alloc: Global,
    faces: &'a Faces,
    here: Option<&'a TheoryFace>,
    span: Span,
    name: &'a Name,
    path: &[Name],
) -> Result<LentLink<'a>, MorphFault>
    requires coherent { IsCoherent (environment_of faces.now) }
    requires here { HereHolds (environment_of faces.now) (option_map (λ face. read_theory face.now) here) }
    ensures { (label : PathOfNames) → Answers read_lent result label (word_answer (read_span span) label (longer_answer (environment_of faces.now) (option_map (λ face. read_theory face.now) here.entry) name.now path.now)) }
{
    match here {
        Some(theory) if theory.name == *name => {
            structures_word(alloc, faces, span, name, &theory.structs, path)
        }
        _ => theory_word(alloc, faces, span, name, path),
    }
}

/// The link of structures of an accepted theory.
fn theory_word<'a>(
    alloc: Global,
    faces: &'a Faces,
    span: Span,
    name: &'a Name,
    path: &[Name],
) -> Result<LentLink<'a>, MorphFault>
    requires { IsCoherent (environment_of faces.now) }
    ensures { (label : PathOfNames) → Answers read_lent result label (word_answer (read_span span) label (longer_word (environment_of faces.now) name.now (environment_of faces.now name.now) path.now)) }
{
    match accepted(faces, span, name)? {
        Interface::Theory { face, .. } => {
            structures_word(alloc, faces, span, name, &face.structs, path)
        }
        Interface::View(_) => Err(MorphFault::Module {
            span,
            rule: Rule::WrongModuleKind,
        }),
    }
}

/// The link of structures in the theory of this name with these structures.
fn structures_word<'a>(
    alloc: Global,
    faces: &'a Faces,
    span: Span,
    name: &'a Name,
    structs: &'a Structs,
    path: &[Name],
) -> Result<LentLink<'a>, MorphFault>
    requires coherent { IsCoherent (environment_of faces.now) }
    requires structures { AreStructures (environment_of faces.now) (read_structures structs.now) }
    ensures { (label : PathOfNames) → Answers read_lent result label (word_answer (read_span span) label (or_unknown (meant.structures_link (environment_of faces.now) name.now (read_structures structs.now) path.now))) }
{
    match lent_structures_link(alloc, faces, name, structs, path)? {
        Some(link) => Ok(link),
        None => Err(MorphFault::UnknownMorphism { span }),
    }
}

/// What an accepted module shows.
fn accepted<'a>(faces: &'a Faces, span: Span, name: &Name) -> Result<&'a Interface, MorphFault>
    ensures { (label : PathOfNames) → Answers (λ interface. known_interface interface.now) result label (known_answer (read_span span) label (environment_of faces.now name.now)) }
{
    match faces.get(name) {
        Some(Verdict::Accepted(interface)) => Ok(interface.get()),
        Some(Verdict::Refused(_)) => Err(MorphFault::Module {
            span,
            rule: Rule::DependencyRefused,
        }),
        None => Err(MorphFault::Module {
            span,
            rule: Rule::UnknownModule,
        }),
    }
}

/// The link of a view.
fn view_link<'a>(view: &'a ViewFace) -> LentLink<'a>
    ensures { read_lent result ≡ meant.view_link (read_view view.now) }
{
    LentLink {
        domain: &view.domain,
        codomain: &view.codomain,
        map: LentMap::Borrowed(&view.map),
    }
}

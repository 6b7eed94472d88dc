//! The link of a row of words.
ghost use Rattle.std.specs.Prelude.{◌≡◌, IfOk};
ghost use Rattle.std.specs.Option.{option_map};
ghost use Rattle.name_meaning.specs.Names.{Path as PathOfNames};
ghost use Rattle.library_meaning.specs.Coherence.{IsCoherent};
ghost use Rattle.library_meaning.specs.Words as meant;
ghost use Rattle.library_meaning.specs.Words.{row_meaning};
ghost use Rattle.link_meaning.specs.Assignments.{or_word_fault, paths_of};
ghost use Rattle.mmt_syntax.specs.Readings.{read_morph, read_words, read_written};
ghost use Rattle.link_laws.specs.LinkTargets.{HereHolds, LinkHolds};
ghost use Rattle.mmt_interface.specs.Readings.{environment_of, read_theory};
ghost use Rattle.morphism_words.specs.Answers.{IsMeaning};
ghost use Rattle.morphism_words.specs.LentLinks.{read_lent};
ghost use Rattle.morphism_words.specs.Steps.{Answers, next_answer, row_answer};

use crate::inclusions::includes;
use crate::lent::LentLink;
use crate::words::word_link;
use crate::{Link, MorphFault};
use mmt_interface::{Faces, TheoryFace};
use mmt_syntax::{Morph, Written};
use std::alloc::Global;

/// The link that a row of words means, composed from left to right, or the first word that breaks a rule. `here` is the
/// theory that is being built, whose structures so far are named by words that begin with its name. The faces are coherent; that
/// theory is not among them, and its structures have coherent maps. So each link of the row has images for what those before it bring.
pub fn meaning(
    alloc: Global,
    faces: &Faces,
    here: Option<&TheoryFace>,
    morph: &Morph,
) -> Result<Link, MorphFault>
    requires coherent { IsCoherent (environment_of faces.now) }
    requires here { HereHolds (environment_of faces.now) (option_map (λ face. read_theory face.now) here) }
    ensures { (label : PathOfNames) → IsMeaning result label (or_word_fault (read_morph morph.now) label (row_meaning (environment_of faces.now) (option_map (λ face. read_theory face.now) here.entry) (paths_of (read_morph morph.now)))) }
{
    match morph.words.as_slice() {
        [first, words @ ..] => {
            let first = word_link(alloc, faces, here, first)?;
            let link = row_link(alloc, faces, here, first, words)?;
            Ok(link.into_link(alloc)?)
        }
        [] => unreachable!(),
    }
}

/// The link so far, followed by the words.
fn row_link<'a>(
    alloc: Global,
    faces: &'a Faces,
    here: Option<&'a TheoryFace>,
    so_far: LentLink<'a>,
    words: &'a [Written],
) -> Result<LentLink<'a>, MorphFault>
    requires coherent { IsCoherent (environment_of faces.now) }
    requires here { HereHolds (environment_of faces.now) (option_map (λ face. read_theory face.now) here) }
    requires so_far { LinkHolds (environment_of faces.now) (option_map (λ face. read_theory face.now) here) (read_lent so_far) }
    ensures { (label : PathOfNames) → Answers read_lent result label (row_answer (environment_of faces.now) (option_map (λ face. read_theory face.now) here.entry) label (read_lent so_far.entry) (read_words words.now)) }
{
    let mut link = so_far;
    for word in words {
        let next = next_link(alloc, faces, here, &link, word);
        drop(link);
        link = next?;
    }
    Ok(link)
}

/// The link so far, followed by one word.
fn next_link<'a>(
    alloc: Global,
    faces: &'a Faces,
    here: Option<&'a TheoryFace>,
    so_far: &LentLink<'a>,
    word: &'a Written,
) -> Result<LentLink<'a>, MorphFault>
    requires coherent { IsCoherent (environment_of faces.now) }
    requires here { HereHolds (environment_of faces.now) (option_map (λ face. read_theory face.now) here) }
    requires so_far { LinkHolds (environment_of faces.now) (option_map (λ face. read_theory face.now) here) (read_lent so_far.now) }
    ensures holds { IfOk result (λ link. LinkHolds (environment_of faces.now) (option_map (λ face. read_theory face.now) here.entry) (read_lent link)) }
    ensures answer { (label : PathOfNames) → Answers read_lent result label (next_answer (environment_of faces.now) (option_map (λ face. read_theory face.now) here.entry) label (read_lent so_far.now) (read_written word.now)) }
{
    let next = word_link(alloc, faces, here, word)?;
    if !meets(faces, so_far, &next) {
        drop(next);
        return Err(MorphFault::Ends { span: word.span });
    }
    let link = so_far.followed_by(alloc, &next);
    drop(next);
    Ok(link?)
}

/// Whether the codomain of a link is the domain of the next, or included in it.
fn meets(faces: &Faces, link: &LentLink<'_>, next: &LentLink<'_>) -> bool
    ensures { result ≡ meant.meets (environment_of faces.now) (read_lent link.now) (read_lent next.now) }
{
    link.codomain == next.domain || includes(faces, next.domain, link.codomain)
}

//! What a module depends on.
ghost use Rattle.std.specs.Prelude.{◌≡◌, ◌∷◌, [], MatchOption};
ghost use Rattle.std.specs.Iterator.{YieldsFirstBy, item_count};
ghost use Rattle.mmt_syntax.specs.Readings.{read_assign, read_module, read_words, read_written};
ghost use Rattle.text_meaning.specs.Dependencies.{is_own_word};
ghost use Rattle.mmt_syntax.specs.Dependencies as meaning;
ghost use Rattle.mmt_syntax.specs.DependenciesLeft as leaving;
ghost use Rattle.mmt_syntax.specs.DependenciesLeft.{item_dependency, left, left_of_links, own_name};

use crate::{Assign, Decl, Module, Written, first_name};
use lf_terms::{Name, Span};

/// The words of assignments, but for those about structures of the theory itself.
#[derive(Debug, Drop)]
pub(crate) struct Links<'a> {
    own: Option<&'a Name>,
    words: &'a [Written],
    assigns: &'a [Assign],
}

/// The direct dependencies of a module, in the order of the text.
#[derive(Debug, Drop)]
pub struct DepIter<'a> {
    first: Option<&'a Written>,
    second: Option<&'a Written>,
    links: Links<'a>,
    decls: &'a [Decl],
}

/// The direct dependencies of a module in the order of the text, with repeats, each with the span of the path that
/// begins with it: included theories, domains of structures, the two ends of a view, and the first names of the words
/// of morphisms. A word about a structure of the theory itself, which begins with the theory's own name and goes on,
/// is none. It takes no memory.
pub fn deps(module: &Module) -> DepIter<'_>
    ensures { left result ≡ meaning.dependencies (read_module «module».now) }
{
    all_deps(module)
}

/// The same, link by link.
fn all_deps(module: &Module) -> DepIter<'_>
    ensures { left result ≡ leaving.left_of_module (read_module «module».now) }
{
    match module {
        Module::Sig { name, decls } => DepIter {
            first: None,
            second: None,
            links: Links {
                own: Some(first_name(name)),
                words: &[],
                assigns: &[],
            },
            decls: decls.as_slice(),
        },
        Module::View(view) => DepIter {
            first: Some(&view.domain),
            second: Some(&view.codomain),
            links: Links {
                own: None,
                words: &[],
                assigns: view.assigns.as_slice(),
            },
            decls: &[],
        },
    }
}

/// Whether a word is about a structure of the theory itself.
fn is_own_word(own: Option<&Name>, word: &Written) -> bool
    ensures { result ≡ is_own_word (own_name own.entry) (read_written word.now).path }
{
    match own {
        Some(own) => word.path.len() > 1 && *own == *first_name(word),
        None => false,
    }
}

/// The first word that is not, and the words behind it.
fn first_word<'a>(own: Option<&Name>, words: &'a [Written]) -> Option<(&'a Written, &'a [Written])>
    ensures { MatchOption result (leaving.word_dependencies (own_name own.entry) (read_words words.now) ≡ [])
        (λ found. leaving.word_dependencies (own_name own.entry) (read_words words.now)
        ≡ leaving.dependency (read_written found.0.now) ∷ leaving.word_dependencies (own_name own.entry) (read_words found.1.now)) }
{
    let mut words = words;
    while let Some((word, rest)) = words.split_first() {
        if !is_own_word(own, word) {
            return Some((word, rest));
        }
        words = rest;
    }
    None
}

/// The words of an assignment.
fn words_of(assign: &Assign) -> &[Written]
    ensures { read_words result.now ≡ leaving.words_of (read_assign assign.now) }
{
    match assign {
        Assign::Include(morph) => morph.words.as_slice(),
        Assign::Struct { morph, .. } => morph.words.as_slice(),
        Assign::Const { .. } => &[],
    }
}

impl<'a> Links<'a> {
    fn next(&mut self) -> Option<&'a Written>
        ensures left { MatchOption result ((left_of_links self.old ≡ []) × (left_of_links self.new ≡ []))
            (λ word. left_of_links self.old ≡ leaving.dependency (read_written word.now) ∷ left_of_links self.new) }
        ensures own { self.new.own ≡ self.old.own }
    {
        'assigns: loop {
            if let Some((word, rest)) = first_word(self.own, self.words) {
                self.words = rest;
                return Some(word);
            }
            let (assign, rest) = self.assigns.split_first()?;
            self.assigns = rest;
            self.words = words_of(assign);
        }
    }
}

impl<'a> DepIter<'a> {
    fn next_written(&mut self) -> Option<&'a Written>
        ensures { MatchOption result ((left self.old ≡ []) × (left self.new ≡ []))
            (λ written. left self.old ≡ leaving.dependency (read_written written.now) ∷ left self.new) }
    {
        if let Some(first) = self.first.take() {
            return Some(first);
        }
        if let Some(second) = self.second.take() {
            return Some(second);
        }
        self.next_in_decls()
    }

    /// The same behind the ends of a view.
    fn next_in_decls(&mut self) -> Option<&'a Written>
        requires first { self.old.first ≡ None }
        requires second { self.old.second ≡ None }
        ensures { MatchOption result ((left self.old ≡ []) × (left self.new ≡ []))
            (λ written. left self.old ≡ leaving.dependency (read_written written.now) ∷ left self.new) }
    {
        'decls: loop {
            if let Some(word) = self.links.next() {
                return Some(word);
            }
            let (decl, rest) = self.decls.split_first()?;
            self.decls = rest;
            match decl {
                Decl::Include(theory) => return Some(theory),
                Decl::Struct(structure) => {
                    self.links.words = &[];
                    self.links.assigns = structure.assigns.as_slice();
                    return Some(&structure.domain);
                }
                Decl::Const { .. } => {}
            }
        }
    }
}

impl<'a> Iterator for DepIter<'a> {
    type Item = (Span, &'a Name);

    ghost next_gives = { YieldsFirstBy item_dependency left };

    ghost remaining = { item_count left };

    fn next(&mut self) -> Option<(Span, &'a Name)> {
        let written = self.next_written()?;
        Some((written.span, first_name(written)))
    }
}

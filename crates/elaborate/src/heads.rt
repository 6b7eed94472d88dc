//! Heads with the arguments that they have taken.
ghost use Rattle.std.specs.Prelude.{◌≡◌, ℕ, IfOk};
ghost use Rattle.std.specs.Option.{option_map};
ghost use Rattle.lf_meaning.specs.Terms as terms;
ghost use Rattle.lf_meaning.specs.Erasure as erasure;
ghost use Rattle.lf_meaning.specs.Substitution.{substitute_family, substitute_kind};
ghost use Rattle.translation_meaning.specs.Heads as meant;
ghost use Rattle.translation_meaning.specs.Heads.{head_takes_all};
ghost use Rattle.elaborate_meaning.specs.NameHeads.{declared_head};
ghost use Rattle.elaborate_meaning.specs.Expansion.{domain_of};
ghost use Rattle.elaborate_meaning.specs.Expansion as expansion;
ghost use Rattle.elaborate_meaning.specs.Values as values;
ghost use Rattle.term_trees.specs.Readings.{read_declaration, read_family, read_kind, read_object, read_objects};
ghost use Rattle.mmt_syntax.specs.Readings.{read_span};
ghost use Rattle.elaborate.specs.LentValues.{value_of};
ghost use Rattle.elaborate.specs.HeadStates.{BodyAt, KindAt, Classifies, Stands, StandsForFamily, StandsForHead, has_binder, value_binders};
ghost use Rattle.elaborate.specs.Answers.{Expands};

use crate::closed::{is_closed_family, is_closed_kind};
use crate::fault::{ElabFault, broken};
use crate::lent::Lent;
use crate::outcomes::{long_family, long_object};
use hereditary_subst::{subst_fam, subst_kind};
use lf_terms::{
    Fam, FlatDecl, Head as TermHead, Kind, Memory, Obj, Span, Spine, Value, erase, same_fam,
    same_kind,
};
use lf_translate::{family_in_place, object_in_place};
use mmt_interface::Rule;
use std::alloc::Global;

/// The two levels of heads.
#[derive(Clone, Copy)]
pub(crate) enum Level {
    Objects,
    Families,
}

/// Where a head begins: at a variable, which is the number of binders between it and its own, or at a declared constant.
#[derive(Drop)]
pub(crate) enum Start<'a> {
    Variable(u32),
    Constant(&'a FlatDecl),
}

/// The classifier that is left after the arguments so far.
#[derive(Drop)]
pub(crate) enum Classifier<'a> {
    Family(Lent<'a, Fam>),
    Kind(Lent<'a, Kind>),
}

/// A head, its arguments so far from left to right, and its classifier so far. A constant that has a value stands for it
/// only when all arguments are there, so that the value takes them at once; and only then are they put on a spine.
#[derive(Drop)]
pub(crate) struct Head<'a> {
    pub(crate) start: Start<'a>,
    pub(crate) arguments: Vec<Obj>,
    pub(crate) classifier: Classifier<'a>,
}

impl<'a> Classifier<'a> {
    /// The domain of the next argument. None where the classifier is no Π.
    pub(crate) fn domain(&self) -> Option<&Fam>
        ensures { (head : meant.Head) → Classifies self.now head → option_map (λ a. read_family a.now) result ≡ domain_of head }
    {
        match self {
            Classifier::Family(family) => match family.get() {
                Fam::Pi(domain, _) => Some(domain),
                Fam::At { .. } => None,
            },
            Classifier::Kind(kind) => match kind.get() {
                Kind::Pi(domain, _) => Some(domain),
                Kind::Ty => None,
            },
        }
    }

    /// The classifier after one argument more. One that is no Π stays: no head takes an argument then.
    fn after(self, alloc: Global, argument: &Obj) -> Result<Classifier<'a>, Memory>
        ensures { IfOk result (λ after. (head : meant.Head) → Classifies self.entry head → Classifies after (meant.head_takes head (read_object argument.now))) }
    {
        match self {
            Classifier::Family(family) => Ok(Classifier::Family(body_at(alloc, family, argument)?)),
            Classifier::Kind(kind) => Ok(Classifier::Kind(kind_at(alloc, kind, argument)?)),
        }
    }
}

/// The body of a Π with the argument in place of its variable. A body without free variables is not copied.
fn body_at<'a>(
    alloc: Global,
    family: Lent<'a, Fam>,
    argument: &Obj,
) -> Result<Lent<'a, Fam>, Memory>
    ensures { IfOk result (λ after. BodyAt family.entry (read_object argument.now) after) }
{
    match family {
        Lent::Borrowed(borrowed) => match borrowed {
            Fam::Pi(_, body) if is_closed_family(body, 0) => Ok(Lent::Borrowed(body)),
            Fam::Pi(domain, body) => substituted_body(alloc, domain, body, argument),
            Fam::At { .. } => Ok(Lent::Borrowed(borrowed)),
        },
        Lent::Made(made) => match Box::into_inner(made) {
            Fam::Pi(domain, body) => {
                if is_closed_family(&body, 0) {
                    Ok(Lent::Made(body))
                } else {
                    substituted_body(alloc, &domain, &body, argument)
                }
            }
            Fam::At { head, spine } => Ok(Lent::Made(Box::new(alloc, Fam::At { head, spine })?)),
        },
    }
}

fn substituted_body<'a>(
    alloc: Global,
    domain: &Fam,
    body: &Fam,
    argument: &Obj,
) -> Result<Lent<'a, Fam>, Memory>
    ensures { IfOk result (λ after. read_family (value_of after) ≡ substitute_family (read_object argument.now) (erasure.erase (read_family domain.now)) 0 (read_family body.now)) }
{
    let simple = Box::new(alloc, erase(alloc, domain)?)?;
    let body = subst_fam(alloc, argument, &simple, 0, body)?;
    Ok(Lent::Made(Box::new(alloc, body)?))
}

/// The kind behind the domain of a Π kind, with the argument in place of the variable. One without free variables is not
/// copied.
fn kind_at<'a>(
    alloc: Global,
    kind: Lent<'a, Kind>,
    argument: &Obj,
) -> Result<Lent<'a, Kind>, Memory>
    ensures { IfOk result (λ after. KindAt kind.entry (read_object argument.now) after) }
{
    match kind {
        Lent::Borrowed(borrowed) => match borrowed {
            Kind::Pi(_, rest) if is_closed_kind(rest, 0) => Ok(Lent::Borrowed(rest)),
            Kind::Pi(domain, rest) => substituted_rest(alloc, domain, rest, argument),
            Kind::Ty => Ok(Lent::Borrowed(borrowed)),
        },
        Lent::Made(made) => match Box::into_inner(made) {
            Kind::Pi(domain, rest) => {
                if is_closed_kind(&rest, 0) {
                    Ok(Lent::Made(rest))
                } else {
                    substituted_rest(alloc, &domain, &rest, argument)
                }
            }
            Kind::Ty => Ok(Lent::Made(Box::new(alloc, Kind::Ty)?)),
        },
    }
}

fn substituted_rest<'a>(
    alloc: Global,
    domain: &Fam,
    rest: &Kind,
    argument: &Obj,
) -> Result<Lent<'a, Kind>, Memory>
    ensures { IfOk result (λ after. read_kind (value_of after) ≡ substitute_kind (read_object argument.now) (erasure.erase (read_family domain.now)) 0 (read_kind rest.now)) }
{
    let simple = Box::new(alloc, erase(alloc, domain)?)?;
    let rest = subst_kind(alloc, argument, &simple, 0, rest)?;
    Ok(Lent::Made(Box::new(alloc, rest)?))
}

impl<'a> Head<'a> {
    /// The same head, with room for so many arguments more. Terms are kept with the room that they were made with.
    pub(crate) fn with_room(self, room: usize) -> Result<Head<'a>, Memory>
        ensures { IfOk result (λ after. (head : meant.Head) → Stands self.entry head → Stands after head) }
    {
        let Head {
            start,
            mut arguments,
            classifier,
        } = self;
        let Ok(()) = arguments.reserve_exact(room) else {
            drop(arguments);
            drop(classifier);
            return Err(Memory);
        };
        Ok(Head {
            start,
            arguments,
            classifier,
        })
    }

    /// The head after one argument more.
    pub(crate) fn takes(self, alloc: Global, argument: Obj) -> Result<Head<'a>, Memory>
        ensures { IfOk result (λ after. (head : meant.Head) → Stands self.entry head → Stands after (meant.head_takes head (read_object argument))) }
    {
        let Head {
            start,
            mut arguments,
            classifier,
        } = self;
        let classifier = classifier.after(alloc, &argument)?;
        arguments.push(argument)?;
        Ok(Head {
            start,
            arguments,
            classifier,
        })
    }

    /// The object that the head and its arguments are: the value of a defined constant takes them hereditarily.
    fn into_object(self, alloc: Global) -> Result<Obj, Memory>
        ensures { IfOk result (λ m. (object : terms.Object) (family : terms.Family) → Stands self.entry (meant.ObjectHead object family) → read_object m ≡ object) }
    {
        let Head {
            start,
            arguments,
            ..
        } = self;
        match start {
            Start::Variable(index) => Ok(Obj::At {
                head: TermHead::Var(index),
                spine: Spine::of(alloc, arguments)?,
            }),
            Start::Constant(decl) => object_of(alloc, decl, arguments),
        }
    }

    /// The family that the head and its arguments are, as `into_object` says it of objects.
    fn into_family(self, alloc: Global) -> Result<Fam, Memory>
        requires { StandsForFamily self }
        ensures { IfOk result (λ a. (binders : ℕ) (family : terms.Family) (kind : terms.Kind) → Stands self.entry (meant.FamilyHead binders family kind) → read_family a ≡ family) }
    {
        let Head {
            start,
            arguments,
            ..
        } = self;
        match start {
            Start::Constant(decl) => family_of(alloc, decl, arguments),
            // No head of families begins at a variable.
            Start::Variable(_) => unreachable!(),
        }
    }

    /// The body of the family value that the head and its arguments are at a kind with domains. Where the value of a
    /// constant has binders left, what stands under them is this body already.
    fn into_body(self, alloc: Global, kind: &Kind) -> Result<Fam, Memory>
        requires { StandsForFamily self }
        ensures { IfOk result (λ a. (binders : ℕ) (family : terms.Family) (domain : terms.Family) (rest : terms.Kind) → Stands self.entry (meant.FamilyHead binders family (terms.PiKind domain rest)) → read_family a ≡ values.expanded_family (read_kind kind.now) binders family) }
    {
        let is_under_binders = self.is_under_binders();
        let outcome = self.into_family(alloc)?;
        if is_under_binders {
            Ok(outcome)
        } else {
            long_family(alloc, kind, outcome)
        }
    }

    /// Whether the value of a constant has more binders than there are arguments so far.
    fn is_under_binders(&self) -> bool
        ensures { (binders : ℕ) (family : terms.Family) (domain : terms.Family) (rest : terms.Kind) → Stands self.now (meant.FamilyHead binders family (terms.PiKind domain rest)) → result ≡ has_binder binders }
    {
        match &self.start {
            Start::Constant(decl) => self.arguments.len() < binders_of(decl) as usize,
            Start::Variable(_) => false,
        }
    }

    /// The object where one is wanted at a family: a name or an application stands only where its classifier is just this
    /// one, and what is atomic at a Π is put in its long form.
    pub(crate) fn object_at(self, alloc: Global, span: Span, family: &Fam) -> Result<Obj, ElabFault>
        ensures { (head : meant.Head) → Stands self.entry head → Expands read_object result (expansion.object_at (read_span span) (read_family family.now) head) }
    {
        match &self.classifier {
            Classifier::Family(found) if same_fam(found.get(), family) => {
                let outcome = self.into_object(alloc)?;
                Ok(long_object(alloc, family, outcome)?)
            }
            Classifier::Family(_) => Err(broken(span, Rule::Mismatch)),
            Classifier::Kind(_) => Err(broken(span, Rule::Level)),
        }
    }

    /// The family where one is wanted at a kind. At `type` no domain may be left.
    pub(crate) fn family_at_kind(
        self,
        alloc: Global,
        span: Span,
        kind: &Kind,
    ) -> Result<Fam, ElabFault>
        requires { StandsForHead self }
        ensures { (head : meant.Head) → Stands self.entry head → Expands read_family result (values.family_at_kind (read_span span) (read_kind kind.now) head) }
    {
        match kind {
            Kind::Ty => self.family_at_type(alloc, span),
            Kind::Pi(_, _) => self.family_at_domains(alloc, span, kind),
        }
    }

    /// The family where one is wanted at a kind with domains: a name or an application stands only where the kind that it
    /// has left is just this one.
    fn family_at_domains(self, alloc: Global, span: Span, kind: &Kind) -> Result<Fam, ElabFault>
        requires { StandsForHead self }
        ensures { (head : meant.Head) → Stands self.entry head → (domain : terms.Family) (rest : terms.Kind) → read_kind kind.now ≡ terms.PiKind domain rest → Expands read_family result (values.family_at_kind (read_span span) (read_kind kind.now) head) }
    {
        match &self.classifier {
            Classifier::Kind(found) if same_kind(found.get(), kind) => {
                Ok(self.into_body(alloc, kind)?)
            }
            Classifier::Kind(_) => Err(broken(span, Rule::Mismatch)),
            Classifier::Family(_) => Err(broken(span, Rule::Level)),
        }
    }

    /// The family where one is wanted: that of a head whose kind so far is `type`.
    pub(crate) fn family_at_type(self, alloc: Global, span: Span) -> Result<Fam, ElabFault>
        requires { StandsForHead self }
        ensures { (head : meant.Head) → Stands self.entry head → Expands read_family result (expansion.family_at_type (read_span span) head) }
    {
        match &self.classifier {
            Classifier::Kind(kind) => match kind.get() {
                Kind::Ty => Ok(self.into_family(alloc)?),
                Kind::Pi(_, _) => Err(broken(span, Rule::NotCanonical)),
            },
            Classifier::Family(_) => Err(broken(span, Rule::Level)),
        }
    }
}

/// A defined constant stands for its value, which takes the arguments; another one keeps them.
fn object_of(alloc: Global, decl: &FlatDecl, arguments: Vec<Obj>) -> Result<Obj, Memory>
    ensures { IfOk result (λ m. (object : terms.Object) (family : terms.Family) → head_takes_all (declared_head (read_declaration decl.now)) (read_objects arguments.items) ≡ meant.ObjectHead object family → read_object m ≡ object) }
{
    let spine = Spine::of(alloc, arguments)?;
    match &decl.value {
        Some(value) => Ok(object_in_place(alloc, &decl.name, &decl.class, value, spine)?),
        None => Ok(Obj::At {
            head: TermHead::Con(decl.name.copy(alloc)?),
            spine,
        }),
    }
}

fn family_of(alloc: Global, decl: &FlatDecl, arguments: Vec<Obj>) -> Result<Fam, Memory>
    ensures { IfOk result (λ a. (binders : ℕ) (family : terms.Family) (kind : terms.Kind) → head_takes_all (declared_head (read_declaration decl.now)) (read_objects arguments.items) ≡ meant.FamilyHead binders family kind → read_family a ≡ family) }
{
    let spine = Spine::of(alloc, arguments)?;
    match &decl.value {
        Some(value) => Ok(family_in_place(alloc, &decl.name, &decl.class, value, spine)?),
        None => Ok(Fam::At {
            head: decl.name.copy(alloc)?,
            spine,
        }),
    }
}

/// The binders of the value of a family constant. One that stands for another constant has none.
fn binders_of(decl: &FlatDecl) -> u32
    ensures { result ≡ value_binders (read_declaration decl.now).value }
{
    match &decl.value {
        Some(value) => match value {
            Value::Fam { binders, .. } => *binders,
            Value::Same(_) => 0,
            Value::Term(_) => 0,
        },
        None => 0,
    }
}

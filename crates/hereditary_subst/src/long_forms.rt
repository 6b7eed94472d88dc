//! Long forms of atomic objects and families (Harper and Licata 2007, section 2: η-expansion at simple types).
//!
//! A long form is built as a whole: the head and its arguments are raised once over all domains, and not once for each.
ghost use Rattle.std.specs.Prelude.{◌≡◌, ◌+◌, ◌++◌, IfOk, map};
ghost use Rattle.lf_meaning.specs.Raising.{raise, raise_atomic};
ghost use Rattle.lf_meaning.specs.Terms as terms;
ghost use Rattle.eta_laws.specs.LongTermLaws.{domain_variables};
ghost use Rattle.eta_meaning.specs.LongTerms as meant;
ghost use Rattle.hereditary_subst.specs.LongForms as long;
ghost use Rattle.term_trees.specs.Readings.{read_constant, read_family, read_head, read_kind, read_object, read_objects, read_simple};

use crate::substitution::one_less;
use lf_terms::{DEEPEST, Fam, Head, Kind, Memory, Obj, QName, Simple, Spine, erase, shift_obj};
use std::alloc::Global;

/// The long form of the head with the arguments at the simple type. Head and arguments stand outside of the λs that it begins
/// with, one for each domain of the simple type.
///
/// Memory where an index or the number of domains would pass the greatest, where domains are nested deeper than `DEEPEST`, or
/// where the arguments measure too much for a spine.
pub fn eta(alloc: Global, simple: &Simple, head: &Head, spine: &[Obj]) -> Result<Obj, Memory>
    ensures { IfOk result (λ m. read_object m ≡ meant.eta (read_simple simple.now) (terms.apply_all (read_head head.now) (read_objects spine.now))) }
{
    let count = arity(simple)?;
    let raised = raised_head(alloc, head, count)?;
    let arguments = raised_all(alloc, spine, count)?;
    long_object(alloc, simple, count, raised, arguments, DEEPEST)
}

/// The long form of the family constant with the arguments at the kind. The constant's own arguments stand outside of the
/// kind's domains, and what is answered behind all of them: their variables are counted from the innermost.
///
/// Memory as for `eta`, at the erasures of the domains.
pub fn eta_fam(alloc: Global, kind: &Kind, head: &QName, spine: &[Obj]) -> Result<Fam, Memory>
    ensures { IfOk result (λ a. read_family a ≡ terms.AtFamily (meant.eta_family (read_kind kind.now) (terms.family_apply_all (terms.FamilyCon (read_constant head.now)) (read_objects spine.now)))) }
{
    let count = domain_count(kind)?;
    let arguments = raised_all(alloc, spine, count)?;
    let all = with_domain_variables(alloc, kind, count, arguments)?;
    Ok(Fam::At {
        head: head.copy(alloc)?,
        spine: Spine::of(alloc, all)?,
    })
}

/// The number of domains of a kind. More than a number of binders can say are want of memory.
pub fn domain_count(kind: &Kind) -> Result<u32, Memory>
    ensures { IfOk result (λ count. count ≡ terms.domain_count (read_kind kind.now)) }
{
    let mut count = 0u32;
    let mut current = kind;
    while let Kind::Pi(_, body) = current {
        count = count.checked_add(1).ok_or(Memory)?;
        current = body;
    }
    Ok(count)
}

/// The number of domains of a simple type, as `domain_count` says it of a kind.
fn arity(simple: &Simple) -> Result<u32, Memory>
    ensures { IfOk result (λ count. count ≡ long.arity (read_simple simple.now)) }
{
    let mut count = 0u32;
    let mut current = simple;
    while let Simple::Arrow(_, codomain) = current {
        count = count.checked_add(1).ok_or(Memory)?;
        current = codomain;
    }
    Ok(count)
}

/// The head under so many binders more.
fn raised_head(alloc: Global, head: &Head, by: u32) -> Result<Head, Memory>
    ensures { IfOk result (λ raised. read_head raised ≡ raise_atomic by 0 (read_head head.now)) }
{
    match head {
        Head::Var(index) => Ok(Head::Var(raised_index(*index, by)?)),
        Head::Con(constant) => Ok(Head::Con(constant.copy(alloc)?)),
    }
}

/// The index of a variable under so many binders more. One past the greatest is want of memory.
fn raised_index(index: u32, by: u32) -> Result<u32, Memory>
    ensures { IfOk result (λ raised. raised ≡ index + by) }
{
    index.checked_add(by).ok_or(Memory)
}

/// The arguments under so many binders more.
fn raised_all(alloc: Global, items: &[Obj], by: u32) -> Result<Vec<Obj>, Memory>
    ensures { IfOk result (λ raised. read_objects raised.items ≡ map (raise by 0) (read_objects items.now)) }
{
    let mut raised = Vec::with_capacity(alloc, items.len())?;
    for item in items {
        raised.push(shift_obj(alloc, item, by, 0)?)?;
    }
    Ok(raised)
}

/// λs for all domains of the simple type, over the head with the arguments and the long forms of the domains' variables. At most
/// so many calls may stand in one another.
#[cycle(long_forms)]
fn long_object(
    alloc: Global,
    simple: &Simple,
    count: u32,
    head: Head,
    arguments: Vec<Obj>,
    left: u32,
) -> Result<Obj, Memory>
    requires count { count ≡ long.arity (read_simple simple.now) }
    ensures { IfOk result (λ m. read_object m ≡ long.under_lambdas count (terms.At (terms.apply_all (read_head head) (read_objects arguments.items ++ long.arrow_variables (read_simple simple.now))))) }
{
    let less = one_less(left)?;
    let all = with_arrow_variables(alloc, simple, count, arguments, less)?;
    let spine = Spine::of(alloc, all)?;
    under_lambdas(alloc, Obj::At { head, spine }, count)
}

/// The arguments, and behind them the long forms of the variables of the simple type's domains.
#[cycle(long_forms)]
fn with_arrow_variables(
    alloc: Global,
    simple: &Simple,
    count: u32,
    arguments: Vec<Obj>,
    left: u32,
) -> Result<Vec<Obj>, Memory>
    requires count { count ≡ long.arity (read_simple simple.now) }
    ensures { IfOk result (λ all. read_objects all.items ≡ read_objects arguments.items ++ long.arrow_variables (read_simple simple.now)) }
{
    let mut all = arguments;
    let mut index = count;
    let mut current = simple;
    while let Simple::Arrow(domain, codomain) = current {
        index -= 1;
        let variable = long_variable(alloc, domain, index, left)?;
        all.push(variable)?;
        current = codomain;
    }
    Ok(all)
}

/// The long form of a variable at the simple type.
#[cycle(long_forms)]
fn long_variable(alloc: Global, simple: &Simple, index: u32, left: u32) -> Result<Obj, Memory>
    ensures { IfOk result (λ m. read_object m ≡ meant.eta (read_simple simple.now) (terms.Var index)) }
{
    let count = arity(simple)?;
    let raised = raised_index(index, count)?;
    long_object(
        alloc,
        simple,
        count,
        Head::Var(raised),
        Vec::new(alloc),
        left,
    )
}

/// The arguments, and behind them the long forms of the variables of the kind's domains.
fn with_domain_variables(
    alloc: Global,
    kind: &Kind,
    count: u32,
    arguments: Vec<Obj>,
) -> Result<Vec<Obj>, Memory>
    requires count { count ≡ terms.domain_count (read_kind kind.now) }
    ensures { IfOk result (λ all. read_objects all.items ≡ read_objects arguments.items ++ domain_variables (read_kind kind.now)) }
{
    let mut all = arguments;
    let mut index = count;
    let mut current = kind;
    while let Kind::Pi(domain, body) = current {
        index -= 1;
        let simple = erase(alloc, domain)?;
        all.push(long_variable(alloc, &simple, index, DEEPEST)?)?;
        current = body;
    }
    Ok(all)
}

/// The object under so many λs.
fn under_lambdas(alloc: Global, body: Obj, count: u32) -> Result<Obj, Memory>
    ensures { IfOk result (λ m. read_object m ≡ long.under_lambdas count (read_object body)) }
{
    let mut object = body;
    for _ in 0..count {
        object = Obj::Lam(Box::new(alloc, object)?);
    }
    Ok(object)
}

//! Terms without free variables. A body of a Π that has none stays what it is, whatever stands in place of its variable.
ghost use Rattle.std.specs.Prelude.{◌≡◌, IsTrue, map};
ghost use Rattle.lf_meaning.specs.Raising.{raise, raise_atomic, raise_family, raise_kind};
ghost use Rattle.term_trees.specs.Readings.{read_arguments, read_family, read_head, read_kind, read_object};

use lf_terms::{Fam, Head, Kind, Obj, Spine};

/// Whether the object is seen to have no free variable from `from` on, which is counted at the top: raising from there
/// leaves it. It takes no memory.
#[cycle(closedness)]
fn is_closed_object(m: &Obj, from: u32) -> bool
    ensures { IsTrue result → read_object m.now ≡ raise 1 from (read_object m.now) }
{
    match m {
        Obj::Lam(body) => match from.checked_add(1) {
            Some(inside) => is_closed_object(body, inside),
            None => false,
        },
        Obj::At { head, spine } => is_closed_head(head, from) && are_closed(spine, from),
    }
}

/// Whether the arguments are, as `is_closed_object` says it of objects.
#[cycle(closedness)]
fn are_closed(spine: &Spine, from: u32) -> bool
    ensures { IsTrue result → read_arguments spine.now ≡ map (raise 1 from) (read_arguments spine.now) }
{
    for item in spine.as_slice() {
        if !is_closed_object(item, from) {
            return false;
        }
    }
    true
}

fn is_closed_head(head: &Head, from: u32) -> bool
    ensures { IsTrue result → read_head head.now ≡ raise_atomic 1 from (read_head head.now) }
{
    match head {
        Head::Var(index) => *index < from,
        Head::Con(_) => true,
    }
}

/// Whether the family is, as `is_closed_object` says it of objects.
pub(crate) fn is_closed_family(family: &Fam, from: u32) -> bool
    ensures { IsTrue result → read_family family.now ≡ raise_family 1 from (read_family family.now) }
{
    match family {
        Fam::Pi(domain, body) => match from.checked_add(1) {
            Some(inside) => is_closed_family(domain, from) && is_closed_family(body, inside),
            None => false,
        },
        Fam::At { spine, .. } => are_closed(spine, from),
    }
}

/// Whether the kind is, as `is_closed_object` says it of objects.
pub(crate) fn is_closed_kind(kind: &Kind, from: u32) -> bool
    ensures { IsTrue result → read_kind kind.now ≡ raise_kind 1 from (read_kind kind.now) }
{
    match kind {
        Kind::Ty => true,
        Kind::Pi(domain, rest) => match from.checked_add(1) {
            Some(inside) => is_closed_family(domain, from) && is_closed_kind(rest, inside),
            None => false,
        },
    }
}

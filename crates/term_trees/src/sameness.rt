//! Whether two terms are equal, as trees. No call takes memory.
ghost use Rattle.std.specs.Prelude.{◌≡◌};
ghost use Rattle.std.specs.Cmp.Lexicographic.{pointwise};
ghost use Rattle.lf_meaning.specs.Equality.{same_object, same_atomic, same_family};
ghost use Rattle.lf_meaning.specs.Equality as meaning;
ghost use Rattle.term_trees.specs.Readings.{read_head, read_object, read_arguments, read_family, read_kind, read_class, read_value};

use crate::{Class, Fam, Head, Kind, Obj, Spine, Value};

/// Whether two objects are equal. It recurses as deep as the objects are nested, with a loop over the arguments of a
/// head.
#[cycle(sameness)]
pub fn same_obj(a: &Obj, b: &Obj) -> bool
    ensures { result ≡ same_object (read_object a.now) (read_object b.now) }
{
    match (a, b) {
        (Obj::Lam(m), Obj::Lam(n)) => same_obj(m, n),
        (Obj::At { head: h, spine: s }, Obj::At { head: g, spine: r }) => {
            same_head(h, g) && same_spine(s, r)
        }
        _ => false,
    }
}

fn same_head(a: &Head, b: &Head) -> bool
    ensures { result ≡ same_atomic (read_head a.now) (read_head b.now) }
{
    match (a, b) {
        (Head::Var(i), Head::Var(j)) => *i == *j,
        (Head::Con(c), Head::Con(d)) => *c == *d,
        _ => false,
    }
}

#[cycle(sameness)]
fn same_spine(a: &Spine, b: &Spine) -> bool
    ensures { result ≡ pointwise same_object (read_arguments a.now) (read_arguments b.now) }
{
    if a.len() != b.len() {
        return false;
    }
    let others = b.as_slice();
    for (i, item) in a.as_slice().iter().enumerate() {
        if !same_obj(item, &others[i]) {
            return false;
        }
    }
    true
}

/// Whether two families are equal. It recurses as deep as the families are nested, their arguments included, with a
/// loop over the arguments of a head.
pub fn same_fam(a: &Fam, b: &Fam) -> bool
    ensures { result ≡ same_family (read_family a.now) (read_family b.now) }
{
    match (a, b) {
        (Fam::Pi(c, d), Fam::Pi(e, f)) => same_fam(c, e) && same_fam(d, f),
        (Fam::At { head: c, spine: s }, Fam::At { head: d, spine: r }) => {
            *c == *d && same_spine(s, r)
        }
        _ => false,
    }
}

/// Whether two kinds are equal. It recurses as deep as the kinds are nested, the arguments in their families included.
pub fn same_kind(a: &Kind, b: &Kind) -> bool
    ensures { result ≡ meaning.same_kind (read_kind a.now) (read_kind b.now) }
{
    match (a, b) {
        (Kind::Ty, Kind::Ty) => true,
        (Kind::Pi(c, k), Kind::Pi(d, l)) => same_fam(c, d) && same_kind(k, l),
        _ => false,
    }
}

/// Whether two classifiers are equal. It recurses as deep as the classifiers are nested, arguments included.
pub fn same_class(a: &Class, b: &Class) -> bool
    ensures { result ≡ meaning.same_class (read_class a.now) (read_class b.now) }
{
    match (a, b) {
        (Class::Kind(k), Class::Kind(l)) => same_kind(k, l),
        (Class::Fam(c), Class::Fam(d)) => same_fam(c, d),
        _ => false,
    }
}

/// Whether two values are equal. It recurses as deep as the values are nested, arguments included.
pub fn same_value(a: &Value, b: &Value) -> bool
    ensures { result ≡ meaning.same_value (read_value a.now) (read_value b.now) }
{
    match (a, b) {
        (Value::Same(c), Value::Same(d)) => *c == *d,
        (Value::Term(m), Value::Term(n)) => same_obj(m, n),
        (
            Value::Fam {
                binders: i,
                body: c,
            },
            Value::Fam {
                binders: j,
                body: d,
            },
        ) => *i == *j && same_fam(c, d),
        _ => false,
    }
}

//! Expansion over a scope and variables that are handed in.
ghost use Rattle.std.specs.Prelude.{IfOk};
ghost use Rattle.lf_meaning.specs.Terms as terms;
ghost use Rattle.lf_meaning.specs.Signatures as signatures;
ghost use Rattle.lf_meaning.specs.Judgements.{Checks, Fits, IsClass, IsContext, IsFamily, IsKind};
ghost use Rattle.elaborate_meaning.specs.Expansion.{expand_family, expand_kind, expand_object};
ghost use Rattle.elaborate_meaning.specs.Locals.{context_of};
ghost use Rattle.elaborate_meaning.specs.Values.{expand_class, expand_value};
ghost use Rattle.elaborate_meaning.specs.Stands.{StandsClass, StandsFamily, StandsKind, StandsObject, StandsValue};
ghost use Rattle.constant_laws.specs.ExpansionHolds.{scope_signature};
ghost use Rattle.elaborate_typing.specs.TypingOfExpansion.{IsTypedScope};
ghost use Rattle.term_trees.specs.Readings.{read_class, read_family, read_kind, read_object, read_value};
ghost use Rattle.mmt_syntax.specs.Readings.{read_expr};
ghost use Rattle.names.specs.Readings.{read_locals, read_scope, read_tabled};
ghost use Rattle.elaborate.specs.Answers.{BreaksNothing, Expands};

use crate::context::Context;
use crate::fault::ElabFault;
use crate::kinds::{class, kind};
use crate::terms::{family, object};
use crate::values::value;
use lf_terms::{Class, Fam, Kind, Obj, Value};
use mmt_syntax::Expr;
use names::{Scope, TabledScope, Vars};
use std::alloc::Global;

/// The kind that an expression stands for: `type`, or a Π of a family and a kind. Ok exactly where it stands for one,
/// and with that; else `Broken` has the first rule that is broken, at the part of the text that breaks it. Where the scope
/// and the variables are well typed, so is the kind. All calls of this crate recurse as deep as the expression is nested,
/// and as the terms that they meet.
pub fn elab_kind(
    alloc: Global,
    scope: &Scope<'_>,
    vars: &Vars,
    expr: &Expr,
) -> Result<Kind, ElabFault>
    ensures answer { Expands read_kind result (expand_kind (read_scope scope.now) (read_locals vars.now) (read_expr expr.now)) }
    ensures stands { IfOk result (λ kind. StandsKind (read_scope scope.now) (read_locals vars.now) (read_expr expr.now) (read_kind kind)) }
    ensures only { (kind : terms.Kind) → StandsKind (read_scope scope.now) (read_locals vars.now) (read_expr expr.now) kind → BreaksNothing result }
    ensures typed { IfOk result (λ kind. IsTypedScope (read_scope scope.now) → IsContext (scope_signature (read_scope scope.now)) (context_of (read_locals vars.now)) → IsKind (scope_signature (read_scope scope.now)) (context_of (read_locals vars.now)) (read_kind kind)) }
{
    let tabled = TabledScope::new(*scope, None);
    kind(alloc, &Context::new(&tabled, vars)?, expr)
}

/// The family that an expression stands for, as `elab_kind` says it of kinds.
pub fn elab_fam(
    alloc: Global,
    scope: &Scope<'_>,
    vars: &Vars,
    expr: &Expr,
) -> Result<Fam, ElabFault>
    ensures answer { Expands read_family result (expand_family (read_scope scope.now) (read_locals vars.now) (read_expr expr.now)) }
    ensures stands { IfOk result (λ family. StandsFamily (read_scope scope.now) (read_locals vars.now) (read_expr expr.now) (read_family family)) }
    ensures only { (family : terms.Family) → StandsFamily (read_scope scope.now) (read_locals vars.now) (read_expr expr.now) family → BreaksNothing result }
    ensures typed { IfOk result (λ family. IsTypedScope (read_scope scope.now) → IsContext (scope_signature (read_scope scope.now)) (context_of (read_locals vars.now)) → IsFamily (scope_signature (read_scope scope.now)) (context_of (read_locals vars.now)) (read_family family)) }
{
    let tabled = TabledScope::new(*scope, None);
    family(alloc, &Context::new(&tabled, vars)?, expr)
}

/// The object that an expression stands for at a family, as `elab_kind` says it of kinds.
pub fn elab_obj(
    alloc: Global,
    scope: &Scope<'_>,
    vars: &Vars,
    expr: &Expr,
    fam: &Fam,
) -> Result<Obj, ElabFault>
    ensures answer { Expands read_object result (expand_object (read_scope scope.now) (read_locals vars.now) (read_expr expr.now) (read_family fam.now)) }
    ensures stands { IfOk result (λ object. StandsObject (read_scope scope.now) (read_locals vars.now) (read_expr expr.now) (read_family fam.now) (read_object object)) }
    ensures only { (object : terms.Object) → StandsObject (read_scope scope.now) (read_locals vars.now) (read_expr expr.now) (read_family fam.now) object → BreaksNothing result }
    ensures typed { IfOk result (λ object. IsTypedScope (read_scope scope.now) → IsContext (scope_signature (read_scope scope.now)) (context_of (read_locals vars.now)) → IsFamily (scope_signature (read_scope scope.now)) (context_of (read_locals vars.now)) (read_family fam.now) → Checks (scope_signature (read_scope scope.now)) (context_of (read_locals vars.now)) (read_object object) (read_family fam.now)) }
{
    let tabled = TabledScope::new(*scope, None);
    object(alloc, &Context::new(&tabled, vars)?, expr, fam)
}

/// The class that an expression stands for where no variable is around it: a kind where it ends in `type`, else a
/// family; as `elab_kind` says it of kinds.
pub fn elab_class(alloc: Global, scope: &Scope<'_>, expr: &Expr) -> Result<Class, ElabFault>
    ensures answer { Expands read_class result (expand_class (read_scope scope.now) (read_expr expr.now)) }
    ensures stands { IfOk result (λ class. StandsClass (read_scope scope.now) (read_expr expr.now) (read_class class)) }
    ensures only { (class : signatures.Class) → StandsClass (read_scope scope.now) (read_expr expr.now) class → BreaksNothing result }
    ensures typed { IfOk result (λ class. IsTypedScope (read_scope scope.now) → IsClass (scope_signature (read_scope scope.now)) (read_class class)) }
{
    let tabled = TabledScope::new(*scope, None);
    let no_vars = Vars::new(alloc);
    class(alloc, &Context::new(&tabled, &no_vars)?, expr)
}

/// The value that an expression stands for at a class where no variable is around it, as `elab_kind` says it of kinds.
/// One name gives the value of its constant, which has just that class, or the constant itself where it has none.
pub fn elab_value(
    alloc: Global,
    scope: &Scope<'_>,
    expr: &Expr,
    class: &Class,
) -> Result<Value, ElabFault>
    ensures answer { Expands read_value result (expand_value (read_scope scope.now) (read_expr expr.now) (read_class class.now)) }
    ensures stands { IfOk result (λ value. StandsValue (read_scope scope.now) (read_expr expr.now) (read_class class.now) (read_value value)) }
    ensures only { (value : signatures.Value) → StandsValue (read_scope scope.now) (read_expr expr.now) (read_class class.now) value → BreaksNothing result }
    ensures typed { IfOk result (λ value. IsTypedScope (read_scope scope.now) → IsClass (scope_signature (read_scope scope.now)) (read_class class.now) → Fits (scope_signature (read_scope scope.now)) (read_value value) (read_class class.now)) }
{
    let tabled = TabledScope::new(*scope, None);
    let no_vars = Vars::new(alloc);
    value(alloc, &Context::new(&tabled, &no_vars)?, expr, class)
}

/// The class that an expression stands for, as `elab_class` says it, in a scope that may have a table.
pub fn elab_class_tabled(
    alloc: Global,
    scope: &TabledScope<'_>,
    expr: &Expr,
) -> Result<Class, ElabFault>
    ensures answer { Expands read_class result (expand_class (read_tabled scope.now) (read_expr expr.now)) }
    ensures stands { IfOk result (λ class. StandsClass (read_tabled scope.now) (read_expr expr.now) (read_class class)) }
    ensures only { (class : signatures.Class) → StandsClass (read_tabled scope.now) (read_expr expr.now) class → BreaksNothing result }
    ensures typed { IfOk result (λ class. IsTypedScope (read_tabled scope.now) → IsClass (scope_signature (read_tabled scope.now)) (read_class class)) }
{
    let no_vars = Vars::new(alloc);
    class(alloc, &Context::new(scope, &no_vars)?, expr)
}

/// The value that an expression stands for at a class, as `elab_value` says it, in a scope that may have a table.
pub fn elab_value_tabled(
    alloc: Global,
    scope: &TabledScope<'_>,
    expr: &Expr,
    class: &Class,
) -> Result<Value, ElabFault>
    ensures answer { Expands read_value result (expand_value (read_tabled scope.now) (read_expr expr.now) (read_class class.now)) }
    ensures stands { IfOk result (λ value. StandsValue (read_tabled scope.now) (read_expr expr.now) (read_class class.now) (read_value value)) }
    ensures only { (value : signatures.Value) → StandsValue (read_tabled scope.now) (read_expr expr.now) (read_class class.now) value → BreaksNothing result }
    ensures typed { IfOk result (λ value. IsTypedScope (read_tabled scope.now) → IsClass (scope_signature (read_tabled scope.now)) (read_class class.now) → Fits (scope_signature (read_tabled scope.now)) (read_value value) (read_class class.now)) }
{
    let no_vars = Vars::new(alloc);
    value(alloc, &Context::new(scope, &no_vars)?, expr, class)
}

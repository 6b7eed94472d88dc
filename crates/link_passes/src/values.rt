//! The values of the domain's own constants.
ghost use Rattle.std.specs.Prelude.{◌≡◌, None, IfOk};
ghost use Rattle.elaborate_meaning.specs.Rules.{DefinitionClash, MorphismsDisagree};
ghost use Rattle.elaborate_meaning.specs.Expansion.{span_of};
ghost use Rattle.link_meaning.specs.Assignments.{label_along};
ghost use Rattle.link_meaning.specs.Passes as passes;
ghost use Rattle.link_meaning.specs.Refusals as refusals;
ghost use Rattle.mapping_laws.specs.NextImages.{unmapped_definition};
ghost use Rattle.term_trees.specs.Readings.{read_class, read_declaration, read_map, read_value};
ghost use Rattle.mmt_syntax.specs.Readings.{read_expr, read_span};
ghost use Rattle.link_setting.specs.Below.Readings.{read_link};
ghost use Rattle.link_setting.specs.Readings.{read_setting};
ghost use Rattle.link_setting.specs.Answers.{Links};
ghost use Rattle.link_passes.specs.Reaching.{read_rest, or_reached};
ghost use Rattle.link_passes.specs.Steps.{assigned_value, shared_value, translated_definition, value_if_definition, value_reached};

use crate::induced::induced_constant;
use crate::labels::{demand, refused};
use crate::reached::{Reached, Rest};
use crate::translated::translated_value;
use elaborate::{ElabFault, elab_value};
use lf_terms::{Class, FlatDecl, HeadMap, Memory, Path, QName, Span, Value, same_value};
use link_setting::{Link, LinkFault, Setting};
use mmt_interface::{Refusal, Rule};
use mmt_syntax::Expr;
use std::alloc::Global;

/// The value of an own constant, by what reaches it. Its class is translated already.
pub(crate) fn own_value(
    alloc: Global,
    setting: &Setting<'_>,
    along: &HeadMap,
    reached: Option<Reached<'_>>,
    class: &Class,
    decl: &FlatDecl,
) -> Result<Value, LinkFault>
    requires { unmapped_definition (read_map along.now) (read_declaration decl.now).value ≡ None }
    ensures { Links read_value result (value_reached (read_setting setting.now) (read_map along.now) (or_reached reached.entry passes.ByNone) (read_class class.now) (read_declaration decl.now)) }
{
    match reached {
        None => unassigned_value(alloc, setting, along, decl),
        Some(Reached::ByValue { target, value }) => {
            value_by_assignment(alloc, setting, along, target, value, class, decl)
        }
        Some(
            Reached::ByStructure {
                target,
                rest,
                structure,
                first,
                by,
            },
        ) => {
            let shared = shared_value(alloc, setting, target, rest, structure, first, by)?;
            value_by_structure(alloc, setting, along, target, first, decl, shared)
        }
    }
}

/// Without an assignment, a defined constant has its translated definition.
fn unassigned_value(
    alloc: Global,
    setting: &Setting<'_>,
    along: &HeadMap,
    decl: &FlatDecl,
) -> Result<Value, LinkFault>
    requires { unmapped_definition (read_map along.now) (read_declaration decl.now).value ≡ None }
    ensures { Links read_value result (passes.unassigned_value (read_setting setting.now) (translated_definition (read_map along.now) (read_declaration decl.now).value) (read_declaration decl.now)) }
{
    match &decl.value {
        Some(definition) => Ok(translated_value(alloc, along, definition)?),
        None => copied_value(alloc, setting, decl),
    }
}

/// An undefined constant without an assignment is copied by a structure, and missing in a view.
fn copied_value(alloc: Global, setting: &Setting<'_>, decl: &FlatDecl) -> Result<Value, LinkFault>
    ensures { Links read_value result (passes.copied_value (read_setting setting.now) (read_setting setting.now).structure (read_declaration decl.now)) }
{
    match setting.structure {
        Some(structure) => {
            let codomain = setting.codomain;
            let constant = induced_constant(alloc, codomain, structure, &decl.name.path)?;
            Ok(Value::Same(constant))
        }
        None => Err(LinkFault::Broken(Refusal {
            span: setting.at.span,
            rule: Rule::MissingAssignment,
            label: decl.name.path.copy(alloc)?,
        })),
    }
}

/// The value that an assignment gives at a class of the codomain.
fn assigned_value(
    alloc: Global,
    setting: &Setting<'_>,
    target: &Path,
    expr: &Expr,
    class: &Class,
) -> Result<Value, LinkFault>
    ensures { Links read_value result (assigned_value (read_setting setting.now) target.now (read_expr expr.now) (read_class class.now)) }
{
    match elab_value(alloc, &setting.scope, expr, class) {
        Ok(value) => Ok(value),
        Err(ElabFault::Broken { span, rule }) => Err(refused(alloc, setting, target, span, rule)),
        Err(ElabFault::Memory) => Err(LinkFault::Memory),
    }
}

/// The value that a sharing link gives to a constant of the structure's domain.
fn shared_value(
    alloc: Global,
    setting: &Setting<'_>,
    target: &Path,
    rest: Rest<'_>,
    structure: &Link,
    first: Span,
    by: &Link,
) -> Result<Value, LinkFault>
    ensures { Links read_value result (shared_value (read_setting setting.now) target.now (read_rest rest.entry) (read_link structure.now) (read_span first) (read_link by.now)) }
{
    let constant = QName {
        theory: structure.domain.copy(alloc)?,
        path: Path::of(alloc, rest.first, rest.more)?,
    };
    let found = by.map.get(&constant);
    drop(constant);
    match found {
        Some(image) => Ok(image.value.copy(alloc)?),
        None => Err(refused(alloc, setting, target, first, Rule::MorphismsDisagree)),
    }
}

/// The value of an assignment, which has to be the translated definition where the constant has one.
fn value_by_assignment(
    alloc: Global,
    setting: &Setting<'_>,
    along: &HeadMap,
    target: &Path,
    expr: &Expr,
    class: &Class,
    decl: &FlatDecl,
) -> Result<Value, LinkFault>
    requires { unmapped_definition (read_map along.now) (read_declaration decl.now).value ≡ None }
    ensures { Links read_value result (value_reached (read_setting setting.now) (read_map along.now) (passes.ByValue target.now (read_expr expr.now)) (read_class class.now) (read_declaration decl.now)) }
{
    let value = assigned_value(alloc, setting, target, expr, class)?;
    match assigned_test(alloc, setting, along, target, expr, decl, &value) {
        Ok(()) => Ok(value),
        Err(fault) => {
            drop(value);
            Err(fault)
        }
    }
}

/// The value of an assignment is the translated definition, where the constant has one.
fn assigned_test(
    alloc: Global,
    setting: &Setting<'_>,
    along: &HeadMap,
    target: &Path,
    expr: &Expr,
    decl: &FlatDecl,
    value: &Value,
) -> Result<(), LinkFault>
    requires { unmapped_definition (read_map along.now) (read_declaration decl.now).value ≡ None }
    ensures { Links (λ done. done) result (refusals.demand (passes.is_definition (translated_definition (read_map along.now) (read_declaration decl.now).value) (read_value value.now)) (span_of (read_expr expr.now)) DefinitionClash (label_along (read_setting setting.now) target.now)) }
{
    let holds = is_definition(alloc, along, decl, value)?;
    demand(
        alloc,
        holds,
        setting,
        target,
        expr.span,
        Rule::DefinitionClash,
    )
}

/// The value that a sharing link gives, which has to be the translated definition where the constant has one.
fn value_by_structure(
    alloc: Global,
    setting: &Setting<'_>,
    along: &HeadMap,
    target: &Path,
    first: Span,
    decl: &FlatDecl,
    value: Value,
) -> Result<Value, LinkFault>
    requires { unmapped_definition (read_map along.now) (read_declaration decl.now).value ≡ None }
    ensures { Links read_value result (value_if_definition (read_setting setting.now) (read_map along.now) target.now (read_span first) (read_declaration decl.now) (read_value value)) }
{
    match shared_value_test(alloc, setting, along, target, first, decl, &value) {
        Ok(()) => Ok(value),
        Err(fault) => {
            drop(value);
            Err(fault)
        }
    }
}

/// The value that a sharing link gives is the translated definition, where the constant has one.
fn shared_value_test(
    alloc: Global,
    setting: &Setting<'_>,
    along: &HeadMap,
    target: &Path,
    first: Span,
    decl: &FlatDecl,
    value: &Value,
) -> Result<(), LinkFault>
    requires { unmapped_definition (read_map along.now) (read_declaration decl.now).value ≡ None }
    ensures { Links (λ done. done) result (refusals.demand (passes.is_definition (translated_definition (read_map along.now) (read_declaration decl.now).value) (read_value value.now)) (read_span first) MorphismsDisagree (label_along (read_setting setting.now) target.now)) }
{
    let holds = is_definition(alloc, along, decl, value)?;
    demand(
        alloc,
        holds,
        setting,
        target,
        first,
        Rule::MorphismsDisagree,
    )
}

/// Whether the value is the translated definition, where there is one.
fn is_definition(
    alloc: Global,
    along: &HeadMap,
    decl: &FlatDecl,
    value: &Value,
) -> Result<bool, Memory>
    requires { unmapped_definition (read_map along.now) (read_declaration decl.now).value ≡ None }
    ensures { IfOk result (λ holds. holds ≡ passes.is_definition (translated_definition (read_map along.now) (read_declaration decl.now).value) (read_value value.now)) }
{
    match &decl.value {
        Some(definition) => {
            let translated = translated_value(alloc, along, definition)?;
            let same = same_value(value, &translated);
            drop(translated);
            Ok(same)
        }
        None => Ok(true),
    }
}

//! Coverings of a theory.
ghost use Rattle.std.specs.Prelude.{◌≡◌, IfOk, Some, is_some};
ghost use Rattle.std.specs.Option.{option_copied, option_map};
ghost use Rattle.lf_meaning.specs.Equality as equality;
ghost use Rattle.lf_meaning.specs.Signatures.{SameAs};
ghost use Rattle.translation_meaning.specs.Differ as differing;
ghost use Rattle.library_meaning.specs.Words.{identity_map, own_value};
ghost use Rattle.term_trees.specs.Readings.{read_constant, read_declaration, read_map, read_signature, read_value};
ghost use Rattle.covering_pass.specs.CoverTables.{read_covering, read_own};

use lf_terms::{FlatDecl, FlatSig, HeadMap, Memory, QName, Value, same_value};
use lf_translate::differ;
use std::alloc::Global;

/// A covering of a theory, on the theory's own constants: the identity, which stands for the theory's own part and is never
/// made; or the map of an assignment.
#[derive(Clone, Copy)]
pub(crate) enum Covering<'a> {
    Identity,
    Along(&'a HeadMap),
}

/// Whether a map and the covering of a theory with this own part give different values to an own constant, or one of them
/// gives none.
pub(crate) fn differs(covering: Covering<'_>, own: Option<&FlatSig>, map: &HeadMap) -> bool
    ensures { result ≡ is_some (differing.differ (read_covering (read_own (option_copied own.entry)) covering.entry) (read_map map.now) (read_own (option_copied own.entry))) }
{
    let Some(own) = own else {
        return false;
    };
    match covering {
        Covering::Identity => differs_from_identity(own, map),
        Covering::Along(first) => differ(first, map, own).is_some(),
    }
}

/// Whether a map gives an own constant another value than the identity, or none.
fn differs_from_identity(own: &FlatSig, map: &HeadMap) -> bool
    ensures { result ≡ is_some (differing.differ (identity_map (read_signature own.now)) (read_map map.now) (read_signature own.now)) }
{
    for i in 0..own.len() {
        if let Some(decl) = own.at(i) {
            if !keeps(map, decl) {
                return true;
            }
        }
    }
    false
}

/// Whether a map gives a constant the value that the identity gives it.
fn keeps(map: &HeadMap, decl: &FlatDecl) -> bool
    ensures { result ≡ differing.agree (Some (own_value (read_declaration decl.now) (read_declaration decl.now).value)) (differing.value_in (read_map map.now) (read_declaration decl.now).name) }
{
    match map.get(&decl.name) {
        Some(image) => is_own_value(decl, &image.value),
        None => false,
    }
}

/// Whether the identity gives the constant this value.
fn is_own_value(decl: &FlatDecl, value: &Value) -> bool
    ensures { result ≡ equality.same_value (own_value (read_declaration decl.now) (read_declaration decl.now).value) (read_value value.now) }
{
    match &decl.value {
        Some(own) => same_value(own, value),
        None => is_constant(&decl.name, value),
    }
}

/// Whether the value is the constant.
fn is_constant(name: &QName, value: &Value) -> bool
    ensures { result ≡ equality.same_value (SameAs (read_constant name.now)) (read_value value.now) }
{
    match value {
        Value::Same(other) => name == other,
        Value::Term(_) => false,
        Value::Fam { .. } => false,
    }
}

/// The value that the covering of a theory with this own part gives to a constant.
pub(crate) fn value_of(
    alloc: Global,
    covering: Covering<'_>,
    own: Option<&FlatSig>,
    constant: &QName,
) -> Result<Option<Value>, Memory>
    ensures { IfOk result (λ value. option_map read_value value ≡ differing.value_in (read_covering (read_own (option_copied own.entry)) covering.entry) (read_constant constant.now)) }
{
    match covering {
        Covering::Identity => value_by_identity(alloc, own, constant),
        Covering::Along(map) => value_along(alloc, map, constant),
    }
}

/// The value that the identity gives to a constant.
fn value_by_identity(
    alloc: Global,
    own: Option<&FlatSig>,
    constant: &QName,
) -> Result<Option<Value>, Memory>
    ensures { IfOk result (λ value. option_map read_value value ≡ differing.value_in (identity_map (read_own (option_copied own.entry))) (read_constant constant.now)) }
{
    let Some(own) = own else {
        return Ok(None);
    };
    match own.get(constant) {
        Some(decl) => Ok(Some(identity_value(alloc, decl)?)),
        None => Ok(None),
    }
}

/// The value that the identity gives to a declared constant.
fn identity_value(alloc: Global, decl: &FlatDecl) -> Result<Value, Memory>
    ensures { IfOk result (λ value. read_value value ≡ own_value (read_declaration decl.now) (read_declaration decl.now).value) }
{
    match &decl.value {
        Some(value) => value.copy(alloc),
        None => Ok(Value::Same(decl.name.copy(alloc)?)),
    }
}

/// The value that a map gives to a constant.
fn value_along(alloc: Global, map: &HeadMap, constant: &QName) -> Result<Option<Value>, Memory>
    ensures { IfOk result (λ value. option_map read_value value ≡ differing.value_in (read_map map.now) (read_constant constant.now)) }
{
    match map.get(constant) {
        Some(image) => Ok(Some(image.value.copy(alloc)?)),
        None => Ok(None),
    }
}

//! The constants that a structure induces.
ghost use Rattle.std.specs.Prelude.{◌≡◌, ◌∷◌, ◌++◌, [], length, nat_eq, None, take, IfOk, OnErr, OnOk};
ghost use Rattle.std.specs.Cmp.Lexicographic.{pointwise};
ghost use Rattle.std.specs.Option.{option_map};
ghost use Rattle.lf_meaning.specs.Signatures.{same_constant};
ghost use Rattle.library_meaning.specs.Faces.{own_part};
ghost use Rattle.term_trees.specs.Readings.{read_class, read_constant, read_declaration, read_image, read_map, read_signature, read_value};
ghost use Rattle.mmt_interface.specs.Readings.{environment_of};
ghost use Rattle.link_meaning.specs.Induced as meant;
ghost use Rattle.lf_meaning.specs.Signatures.{declaration_of};
ghost use Rattle.link_laws.proofs.Onces.{Once};
ghost use Rattle.struct_flatten.specs.Steps.{induced_into};

use lf_terms::{Class, FlatDecl, FlatSig, Image, Memory, Name, Path, QName, Value};
use mmt_interface::{Faces, StructFace};
use morphism::induced_constant;
use std::alloc::Global;

/// Adds the constants that a structure of the theory with this name induces: one for each own constant of its domain that
/// has an image, in order. None of them is there yet. For want of memory some of them may have been added.
pub(crate) fn add_induced(
    alloc: Global,
    faces: &Faces,
    here: &Name,
    face: &StructFace,
    own: &mut FlatSig,
) -> Result<(), Memory>
    requires { Once (read_signature own.old ++ induced_into here.now face.now.name (read_map face.now.map) (own_part (environment_of faces.now) face.now.domain)) }
    ensures ok { OnOk result (read_signature own.new ≡ read_signature own.old ++ induced_into here.now face.now.name (read_map face.now.map) (own_part (environment_of faces.now) face.now.domain)) }
    ensures front { take (length own.old) own.new ≡ own.old }
{
    match faces.theory(&face.domain) {
        Some(domain) => {
            own.reserve(domain.own.len())?;
            add_all(alloc, here, face, &domain.own, own)
        }
        None => Ok(()),
    }
}

/// Adds those that are induced from these declarations.
fn add_all(
    alloc: Global,
    here: &Name,
    face: &StructFace,
    declarations: &FlatSig,
    own: &mut FlatSig,
) -> Result<(), Memory>
    requires { Once (read_signature own.old ++ induced_into here.now face.now.name (read_map face.now.map) (read_signature declarations.now)) }
    ensures ok { OnOk result (read_signature own.new ≡ read_signature own.old ++ induced_into here.now face.now.name (read_map face.now.map) (read_signature declarations.now)) }
    ensures front { take (length own.old) own.new ≡ own.old }
{
    for index in 0..declarations.len() {
        if let Some(decl) = declarations.at(index) {
            add_one(alloc, here, face, decl, own)?;
        }
    }
    Ok(())
}

/// Adds the one that is induced from this declaration, if one is.
fn add_one(
    alloc: Global,
    here: &Name,
    face: &StructFace,
    decl: &FlatDecl,
    own: &mut FlatSig,
) -> Result<(), Memory>
    requires { Once (read_signature own.old ++ induced_into here.now face.now.name (read_map face.now.map) (read_declaration decl.now ∷ [])) }
    ensures ok { OnOk result (read_signature own.new ≡ read_signature own.old ++ induced_into here.now face.now.name (read_map face.now.map) (read_declaration decl.now ∷ [])) }
    ensures front { take (length own.old) own.new ≡ own.old }
{
    match face.map.get(&decl.name) {
        Some(image) => add(
            own,
            induced_from(alloc, here, &face.name, &decl.name.path, image)?,
        ),
        None => Ok(()),
    }
}

/// The constant that the structure induces from the one at this path with this image. Where the image is that constant itself, the
/// two share its path.
fn induced_from(
    alloc: Global,
    here: &Name,
    structure: &Name,
    path: &Path,
    image: &Image,
) -> Result<FlatDecl, Memory>
    ensures { IfOk result (λ decl. read_declaration decl ≡ meant.induced_with (record { theory = here.now; path = structure.now ∷ path.now }) (read_image image.now)) }
{
    if let Value::Same(constant) = &image.value {
        if is_induced(constant, here, structure, path) {
            return undefined(alloc, constant, &image.class);
        }
    }
    let constant = induced_constant(alloc, here, structure, path)?;
    induced_with(alloc, constant, image)
}

/// Whether this is the constant that the structure induces from the one at this path.
fn is_induced(constant: &QName, here: &Name, structure: &Name, path: &Path) -> bool
    ensures { result ≡ same_constant (read_constant constant.now) (record { theory = here.now; path = structure.now ∷ path.now }) }
{
    constant.theory == *here && is_behind(constant.path.as_slice(), structure, path.as_slice())
}

/// Whether names are those of a path behind a structure's name.
fn is_behind(names: &[Name], structure: &Name, path: &[Name]) -> bool
    ensures { result ≡ pointwise (pointwise nat_eq) names.now (structure.now ∷ path.now) }
{
    match names {
        [first, rest @ ..] => *first == *structure && *rest == *path,
        [] => false,
    }
}

/// The constant with this class, which has no value.
fn undefined(alloc: Global, constant: &QName, class: &Class) -> Result<FlatDecl, Memory>
    ensures { IfOk result (λ decl. read_declaration decl ≡ record { name = read_constant constant.now; class = read_class class.now; value = None }) }
{
    let class = class.copy(alloc)?;
    let Ok(name) = constant.copy(alloc) else {
        drop(class);
        return Err(Memory);
    };
    Ok(FlatDecl {
        name,
        class,
        value: None,
    })
}

/// The constant with the class of an image, defined by the image's value.
fn induced_with(alloc: Global, constant: QName, image: &Image) -> Result<FlatDecl, Memory>
    ensures { IfOk result (λ decl. read_declaration decl ≡ meant.induced_with (read_constant constant) (read_image image.now)) }
{
    let Ok(class) = image.class.copy(alloc) else {
        drop(constant);
        return Err(Memory);
    };
    let Ok(value) = defined_by(alloc, &constant, &image.value) else {
        drop(constant);
        drop(class);
        return Err(Memory);
    };
    Ok(FlatDecl {
        name: constant,
        class,
        value,
    })
}

/// The value, unless it is the constant itself.
fn defined_by(alloc: Global, constant: &QName, value: &Value) -> Result<Option<Value>, Memory>
    ensures { IfOk result (λ definition. option_map read_value definition ≡ meant.defined_by (read_constant constant.now) (read_value value.now)) }
{
    match value {
        Value::Same(other) => {
            if *other == *constant {
                Ok(None)
            } else {
                Ok(Some(Value::Same(other.copy(alloc)?)))
            }
        }
        _ => Ok(Some(value.copy(alloc)?)),
    }
}

/// Adds a declaration of a new name.
fn add(own: &mut FlatSig, decl: FlatDecl) -> Result<(), Memory>
    requires { declaration_of (read_signature own.old) (read_declaration decl).name ≡ None }
    ensures ok { OnOk result (read_signature own.new ≡ read_signature own.old ++ read_declaration decl ∷ []) }
    ensures front { take (length own.old) own.new ≡ own.old }
{
    match own.push_new(decl) {
        Ok(()) => Ok(()),
        Err(back) => {
            drop(back);
            Err(Memory)
        }
    }
}

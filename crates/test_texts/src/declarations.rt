//! Signatures, contexts and maps, a line for each entry. There is none where a line is of no entry, or memory is wanting.

use crate::calls::succeeds;
use crate::names::constant;
use crate::terms::{class, family, value};
use lf_terms::{Class, Ctx, FlatDecl, FlatSig, HeadMap, Image, QName};
use std::alloc::Global;

/// The declarations of a text: `c : CLASS` or `c : CLASS = VALUE`.
pub fn signature(alloc: Global, text: &str) -> Option<Box<FlatSig>> {
    let mut sig = Box::new(alloc, FlatSig::new(alloc)).ok()?;
    if are_declared(alloc, &mut sig, text) {
        Some(sig)
    } else {
        drop(sig);
        None
    }
}

fn are_declared(alloc: Global, sig: &mut FlatSig, text: &str) -> bool {
    for line in text.lines() {
        if !is_declared(alloc, sig, line) {
            return false;
        }
    }
    true
}

/// Whether the declaration of a line could be added.
fn is_declared(alloc: Global, sig: &mut FlatSig, line: &str) -> bool {
    let (name, rest) = line.split_once(" : ").unwrap_or(("", ""));
    let Some(name) = constant(alloc, name) else {
        return false;
    };
    match rest.split_once(" = ") {
        None => is_undefined(sig, name, class(alloc, rest)),
        Some((written, given)) => is_defined(sig, name, image(alloc, written, given)),
    }
}

fn is_undefined(sig: &mut FlatSig, name: QName, class: Option<Box<Class>>) -> bool {
    match class {
        Some(class) => {
            let class = Box::into_inner(class);
            let value = None;
            succeeds(sig.push(FlatDecl { name, class, value }))
        }
        None => {
            drop(name);
            false
        }
    }
}

fn is_defined(sig: &mut FlatSig, name: QName, image: Option<Box<Image>>) -> bool {
    match image {
        Some(image) => {
            let Image { class, value } = Box::into_inner(image);
            let value = Some(value);
            succeeds(sig.push(FlatDecl { name, class, value }))
        }
        None => {
            drop(name);
            false
        }
    }
}

/// The image of a class and a value.
fn image(alloc: Global, written: &str, given: &str) -> Option<Box<Image>> {
    let class = class(alloc, written)?;
    match value(alloc, given) {
        Some(value) => {
            let class = Box::into_inner(class);
            let value = Box::into_inner(value);
            Box::new(alloc, Image { class, value }).ok()
        }
        None => {
            drop(class);
            None
        }
    }
}

/// The map of a text: `c : CLASS = VALUE` gives c that image.
pub fn map(alloc: Global, text: &str) -> Option<Box<HeadMap>> {
    let mut map = Box::new(alloc, HeadMap::new(alloc)).ok()?;
    if are_mapped(alloc, &mut map, text) {
        Some(map)
    } else {
        drop(map);
        None
    }
}

fn are_mapped(alloc: Global, map: &mut HeadMap, text: &str) -> bool {
    for line in text.lines() {
        if !is_mapped(alloc, map, line) {
            return false;
        }
    }
    true
}

/// Whether the image of a line could be added.
fn is_mapped(alloc: Global, map: &mut HeadMap, line: &str) -> bool {
    let (name, rest) = line.split_once(" : ").unwrap_or(("", ""));
    let (written, given) = rest.split_once(" = ").unwrap_or(("", ""));
    match constant(alloc, name) {
        Some(name) => is_image_added(map, name, image(alloc, written, given)),
        None => false,
    }
}

fn is_image_added(map: &mut HeadMap, name: QName, image: Option<Box<Image>>) -> bool {
    match image {
        Some(image) => succeeds(map.push(name, Box::into_inner(image))),
        None => {
            drop(name);
            false
        }
    }
}

/// The context of a text: `x : A` is a variable with its family, among the variables before it.
pub fn context(alloc: Global, text: &str) -> Option<Box<Ctx>> {
    let mut ctx = Box::new(alloc, Ctx::new(alloc)).ok()?;
    if are_variables(alloc, &mut ctx, text) {
        Some(ctx)
    } else {
        drop(ctx);
        None
    }
}

fn are_variables(alloc: Global, ctx: &mut Ctx, text: &str) -> bool {
    let mut names = String::new(alloc);
    let mut all = true;
    for line in text.lines() {
        all = all && is_variable(alloc, ctx, &mut names, line);
    }
    all
}

/// Whether the variable of a line could be added, and its name to those before it.
fn is_variable(alloc: Global, ctx: &mut Ctx, names: &mut String, line: &str) -> bool {
    let (name, written) = line.split_once(" : ").unwrap_or(("", ""));
    match family(alloc, names.as_str(), written) {
        Some(family) => {
            ctx.add(Box::into_inner(family)).is_ok()
                && names.push_str(" ").is_ok()
                && names.push_str(name).is_ok()
        }
        None => false,
    }
}

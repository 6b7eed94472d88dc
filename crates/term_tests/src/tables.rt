//! Tables and shared values: calls over values in memory.
use lf_terms::{
    Arc, FlatDecl, FlatSig, HeadMap, Image, MapFault, MapPart, Memory, Name, Obj, PushFault, QName,
    Simple, Spine, same_class, same_obj, same_value,
};
use std::alloc::Global;
use test_texts::found::{constant, map, object, signature, simple};
use test_texts::{Told, succeeds};

const DECLARED: &str = "\
a : type
c : a
d : a = same c";

/// Whether what a row says of tables is so.
pub(crate) fn table_call(alloc: Global, line: &str) -> bool {
    match line {
        "declarations are found by name" => are_found_by_name(alloc),
        "declarations are found by path" => are_found_by_path(alloc),
        "images are found by name" => are_images_found(alloc),
        "maps share the images of the identity" => do_maps_share(alloc),
        "a part behind pairs is not shared" => is_part_left(alloc),
        "a value is shared" => is_shared(alloc),
        "arguments grow at their end" => do_arguments_grow(alloc),
        _ => do_families_erase(alloc),
    }
}

/// A copy of the declaration at an index.
fn declaration_at(alloc: Global, sig: &FlatSig, i: usize) -> Option<Box<FlatDecl>> {
    Box::new(alloc, sig.at(i)?.copy(alloc).ok()?).ok()
}

/// Whether a copy of the declaration at an index comes back where it is pushed again.
fn comes_back(alloc: Global, sig: &mut FlatSig, i: usize) -> bool {
    match declaration_at(alloc, sig, i) {
        Some(copy) => {
            let pushed = sig.push(Box::into_inner(copy));
            is_twice(sig, pushed, i)
        }
        None => false,
    }
}

/// Whether the declaration at an index came back.
fn is_twice(sig: &FlatSig, pushed: Result<(), PushFault>, i: usize) -> bool {
    let holds = match &pushed {
        Err(PushFault::Twice(decl)) => is_declared_at(sig, decl, i),
        _ => false,
    };
    drop(pushed);
    holds
}

fn is_declared_at(sig: &FlatSig, decl: &FlatDecl, i: usize) -> bool {
    match sig.get(&decl.name) {
        Some(found) => { sig.place(&decl.name) == Some(i) && same_class(&found.class, &decl.class) }
        None => false,
    }
}

fn are_found_by_name(alloc: Global) -> bool {
    match signature(alloc, DECLARED) {
        Some(mut sig) => {
            comes_back(alloc, &mut sig, 0)
                && comes_back(alloc, &mut sig, 2)
                && comes_back(alloc, &mut sig, 0)
                && sig.len() == 3
                && sig.at(3).is_none()
        }
        None => false,
    }
}

/// Of one theory, and of two: `c` of the first theory comes before that of the other, and `d` behind it.
const OF_ONE: &str = "\
a : type
c : a
t.s.c : a";

const OF_TWO: &str = "\
a : type
c : a
U.c : a
U.d : a
d : a";

/// Paths with the place of the first declaration: in the declarations of one theory, of two, and of the first three of these.
const IN_ONE: &[(&str, Option<usize>)] = &[
    ("t.a", Some(0)),
    ("t.c", Some(1)),
    ("t.s.c", Some(2)),
    ("t.s", None),
];

const IN_TWO: &[(&str, Option<usize>)] = &[
    ("t.a", Some(0)),
    ("t.c", Some(1)),
    ("t.d", Some(3)),
    ("t.s.c", None),
];

const IN_THREE: &[(&str, Option<usize>)] = &[("t.a", Some(0)), ("t.c", Some(1)), ("t.d", None)];

/// Whether the first declaration of a path is at this place.
fn is_first(alloc: Global, sig: &FlatSig, written: &str, place: Option<usize>) -> bool {
    match constant(alloc, written) {
        Some(name) => first_place(sig, name.path.as_slice()) == place,
        None => false,
    }
}

/// The place of the first declaration of a path.
fn first_place(sig: &FlatSig, path: &[Name]) -> Option<usize> {
    sig.place(&sig.first_at(path)?.name)
}

fn are_first(alloc: Global, sig: &FlatSig, wanted: &[(&str, Option<usize>)]) -> bool {
    for &(written, place) in wanted {
        if !is_first(alloc, sig, written, place) {
            return false;
        }
    }
    true
}

fn are_found_by_path(alloc: Global) -> bool {
    are_found_in_one(alloc) && are_found_in_two(alloc)
}

fn are_found_in_one(alloc: Global) -> bool {
    match signature(alloc, OF_ONE) {
        Some(one) => are_first(alloc, &one, IN_ONE),
        None => false,
    }
}

fn are_found_in_two(alloc: Global) -> bool {
    match signature(alloc, OF_TWO) {
        Some(mut two) => {
            let in_two = are_first(alloc, &two, IN_TWO);
            two.truncate(3);
            in_two && are_first(alloc, &two, IN_THREE)
        }
        None => false,
    }
}

const MAPPED: &str = "\
c : a = same d
f : a -> a = [x] g x x";

fn name_at(alloc: Global, map: &HeadMap, i: usize) -> Option<QName> {
    map.at(i)?.0.copy(alloc).ok()
}

fn image_at(alloc: Global, map: &HeadMap, i: usize) -> Option<Box<Image>> {
    Box::new(alloc, map.at(i)?.1.copy(alloc).ok()?).ok()
}

/// Whether copies of a constant and its image come back where they are pushed again.
fn image_comes_back(alloc: Global, map: &mut HeadMap, i: usize) -> bool {
    let image = image_at(alloc, map, i);
    match name_at(alloc, map, i) {
        Some(name) => is_name_back(map, name, image),
        None => false,
    }
}

fn is_name_back(map: &mut HeadMap, name: QName, image: Option<Box<Image>>) -> bool {
    match image {
        Some(image) => {
            let pushed = map.push(name, Box::into_inner(image));
            is_mapped_twice(map, pushed)
        }
        None => {
            drop(name);
            false
        }
    }
}

/// Whether the image of the constant came back.
fn is_mapped_twice(map: &HeadMap, pushed: Result<(), MapFault>) -> bool {
    let holds = match &pushed {
        Err(MapFault::Twice(name, image)) => is_image(map.get(name), image),
        _ => false,
    };
    drop(pushed);
    holds
}

fn is_image(found: Option<&Image>, image: &Image) -> bool {
    match found {
        Some(found) => {
            same_class(&found.class, &image.class) && same_value(&found.value, &image.value)
        }
        None => false,
    }
}

fn are_images_found(alloc: Global) -> bool {
    match map(alloc, MAPPED) {
        Some(mut map) => {
            image_comes_back(alloc, &mut map, 0)
                && image_comes_back(alloc, &mut map, 1)
                && image_comes_back(alloc, &mut map, 0)
                && map.len() == 2
                && map.at(2).is_none()
        }
        None => false,
    }
}

/// What the identity gives to the declared constants: an undefined one is itself, a defined one its own value.
const KEPT: &str = "\
a : type = same a
c : a = same c
d : a = same c";

const MAPPED_FIRST: &str = "f : a = same d";

/// Whether the maps have the same constants with the same images, in the same order.
fn is_same_map(map: &HeadMap, wanted: &HeadMap) -> bool {
    for i in 0..wanted.len() {
        if !is_same_pair(map.at(i), wanted.at(i)) {
            return false;
        }
    }
    map.len() == wanted.len()
}

fn is_same_pair(pair: Option<(&QName, &Image)>, wanted: Option<(&QName, &Image)>) -> bool {
    match (pair, wanted) {
        (Some((name, image)), Some((other, given))) => {
            name == other && is_image(Some(image), given)
        }
        _ => false,
    }
}

/// Whether a map that takes in this part alone, and its copy, are the map of a text, and the part is not taken in twice.
fn shares(alloc: Global, part: &Arc<MapPart>, text: &str) -> bool {
    match map(alloc, text) {
        Some(wanted) => is_shared_map(alloc, part, &wanted),
        None => false,
    }
}

fn is_shared_map(alloc: Global, part: &Arc<MapPart>, wanted: &HeadMap) -> bool {
    let mut shared = HeadMap::new(alloc);
    let first = shared.share_part(alloc, part) == Ok(true);
    let again = shared.share_part(alloc, part) == Ok(false);
    first && again && is_same_map(&shared, wanted) && is_same_copy(shared.copy(alloc), wanted)
}

fn is_same_copy(copy: Result<HeadMap, Memory>, wanted: &HeadMap) -> bool {
    match copy {
        Ok(copy) => is_same_map(&copy, wanted),
        Err(_) => false,
    }
}

fn do_maps_share(alloc: Global) -> bool {
    match signature(alloc, DECLARED) {
        Some(mut sig) => {
            let unfinished = sig.identity().is_none();
            unfinished && sig.finish(alloc).is_ok() && is_identity_shared(alloc, &sig)
        }
        None => false,
    }
}

fn is_identity_shared(alloc: Global, sig: &FlatSig) -> bool {
    match sig.identity() {
        Some(part) => shares(alloc, part, KEPT),
        None => false,
    }
}

/// Whether a map with a pair of its own takes in no part, and stays as it was.
fn is_part_left(alloc: Global) -> bool {
    match signature(alloc, DECLARED) {
        Some(mut sig) => sig.finish(alloc).is_ok() && is_identity_left(alloc, &sig),
        None => false,
    }
}

fn is_identity_left(alloc: Global, sig: &FlatSig) -> bool {
    match sig.identity() {
        Some(part) => is_left_behind(alloc, part),
        None => false,
    }
}

fn is_left_behind(alloc: Global, part: &Arc<MapPart>) -> bool {
    match map(alloc, MAPPED_FIRST) {
        Some(mut behind) => {
            behind.share_part(alloc, part) == Ok(false) && is_map_of(alloc, &behind, MAPPED_FIRST)
        }
        None => false,
    }
}

fn is_map_of(alloc: Global, found: &HeadMap, text: &str) -> bool {
    match map(alloc, text) {
        Some(wanted) => is_same_map(found, &wanted),
        None => false,
    }
}

fn shared_name(alloc: Global) -> Option<Arc<Name>> {
    Arc::new(alloc, Name::new(alloc, "n").ok()?).ok()
}

fn is_shared(alloc: Global) -> bool {
    match shared_name(alloc) {
        Some(shared) => is_n(shared.share()),
        None => false,
    }
}

fn is_n(shared: Result<Arc<Name>, Memory>) -> bool {
    match shared {
        Ok(again) => again.get().as_str() == "n",
        Err(_) => false,
    }
}

/// Whether arguments that were added one by one are there, and a copy that grows leaves them as they are.
fn do_arguments_grow(alloc: Global) -> bool {
    let mut spine = Spine::new(alloc);
    let all = is_added(alloc, &mut spine) && is_pushed(alloc, &mut spine);
    all && spine.len() == 2 && is_second(alloc, &spine) && does_copy_grow_alone(alloc, &spine)
}

fn does_copy_grow_alone(alloc: Global, spine: &Spine) -> bool {
    match spine.copy(alloc) {
        Ok(mut copied) => is_pushed(alloc, &mut copied) && copied.len() == 3 && spine.len() == 2,
        Err(_) => false,
    }
}

fn is_added(alloc: Global, spine: &mut Spine) -> bool {
    match object(alloc, "", "#0") {
        Some(object) => spine.add(Box::into_inner(object)).is_ok(),
        None => false,
    }
}

fn is_pushed(alloc: Global, spine: &mut Spine) -> bool {
    match object(alloc, "", "c") {
        Some(object) => succeeds(spine.push(Box::into_inner(object))),
        None => false,
    }
}

fn is_second(alloc: Global, spine: &Spine) -> bool {
    match object(alloc, "", "c") {
        Some(other) => is_object(spine.get(1), &other),
        None => false,
    }
}

fn is_object(found: Option<&Obj>, other: &Obj) -> bool {
    match found {
        Some(found) => same_obj(found, other),
        None => false,
    }
}

fn do_families_erase(alloc: Global) -> bool {
    match simple(alloc, "(a -> b) -> {x:a} c x") {
        Some(erased) => {
            let mut told = Told::new(alloc);
            tell_simple(&erased, &mut told);
            told.as_str() == "((a b) (a c))"
        }
        None => false,
    }
}

/// Tells a base by its name, an arrow in parentheses.
fn tell_simple(simple: &Simple, told: &mut Told) {
    match simple {
        Simple::Base(name) => {
            for name in name.path.as_slice() {
                told.say(name.as_str());
            }
        }
        Simple::Arrow(domain, codomain) => {
            told.say("(");
            tell_simple(domain, told);
            told.say(" ");
            tell_simple(codomain, told);
            told.say(")");
        }
    }
}

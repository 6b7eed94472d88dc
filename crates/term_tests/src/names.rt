//! Names by the rules of the formats, paths, and lists.

use lf_terms::{Bytes, Fam, Memory, Name, NameFault, Obj, Path, QName, Spine, Texts};
use std::alloc::Global;
use std::collections::{BTreeSet, HashSet};
use std::mem::size_of;
use test_texts::succeeds;

/// A text, in which signs that cannot be seen stand as in a text of Rust, and `\e` is an equals sign.
fn plain(alloc: Global, written: &str) -> Option<String> {
    let mut text = String::new(alloc);
    if is_plain(&mut text, written) {
        Some(text)
    } else {
        drop(text);
        None
    }
}

/// Whether memory was there for it.
fn is_plain(text: &mut String, written: &str) -> bool {
    let mut is_behind = false;
    let mut all = true;
    for sign in written.chars() {
        if is_behind {
            all = all && text.push(named(sign)).is_ok();
            is_behind = false;
        } else if sign == '\\' {
            is_behind = true;
        } else {
            all = all && text.push(sign).is_ok();
        }
    }
    all
}

/// The sign that stands behind a backslash by this one.
fn named(sign: char) -> char {
    match sign {
        'b' => '\u{8}',
        't' => '\t',
        'n' => '\n',
        'v' => '\u{b}',
        'f' => '\u{c}',
        'r' => '\r',
        _ => '=',
    }
}

/// Whether a text is a name.
pub(crate) fn is_name(alloc: Global, written: &str) -> bool {
    match plain(alloc, written) {
        Some(text) => is_name_of(alloc, text.as_str()),
        None => false,
    }
}

/// Whether there is a name of a text, and its copy has the same text.
fn is_name_of(alloc: Global, text: &str) -> bool {
    match Name::new(alloc, text) {
        Ok(name) => is_text_of(name.copy(alloc), text),
        Err(_) => false,
    }
}

fn is_text_of(copy: Result<Name, Memory>, text: &str) -> bool {
    match copy {
        Ok(copy) => copy.as_str() == text,
        Err(_) => false,
    }
}

/// Whether a text is no name.
pub(crate) fn is_no_name(alloc: Global, written: &str) -> bool {
    match plain(alloc, written) {
        Some(text) => Name::new(alloc, text.as_str()).err() == Some(NameFault::NotAName),
        None => false,
    }
}

/// Whether what a row says of names, paths and lists is so.
pub(crate) fn name_call(alloc: Global, line: &str) -> bool {
    match line {
        "names stand in byte order" => are_in_order(alloc),
        "names and terms are small" => are_small(),
        "equal names are told from others" => are_told_apart(alloc),
        "paths are different by their names" => are_different(alloc),
        "a copy of a path grows" => grow(alloc),
        "bytes grow at their end" => bytes_grow(alloc),
        _ => texts_grow(alloc),
    }
}

/// Names that are put into a set.
const UNORDERED: &[&str] = &["b", "a", "Z", "ab", "a"];

fn are_in_order(alloc: Global) -> bool {
    let mut names = BTreeSet::new(alloc);
    let mut row = String::new(alloc);
    are_inserted(alloc, &mut names) && is_row(&names, &mut row) && row.as_str() == "Z a ab b "
}

fn are_inserted(alloc: Global, names: &mut BTreeSet<Name>) -> bool {
    for &text in UNORDERED {
        if !is_inserted(alloc, names, text) {
            return false;
        }
    }
    true
}

fn is_inserted(alloc: Global, names: &mut BTreeSet<Name>, text: &str) -> bool {
    match Name::new(alloc, text) {
        Ok(name) => succeeds(names.insert(name)),
        Err(_) => false,
    }
}

/// Whether memory was there for the row of the names, each with a blank behind it.
fn is_row(names: &BTreeSet<Name>, row: &mut String) -> bool {
    let mut all = true;
    for name in names.iter() {
        all = all && row.push_str(name.as_str()).is_ok() && row.push_str(" ").is_ok();
    }
    all
}

/// Whether a name takes two words, and what is made of names few: they are copied and compared all the time.
fn are_small() -> bool {
    are_names_small() && are_terms_small()
}

fn are_names_small() -> bool {
    size_of::<Name>() <= 16 && size_of::<Path>() <= 24 && size_of::<QName>() <= 40
}

fn are_terms_small() -> bool {
    size_of::<Spine>() <= 16 && size_of::<Obj>() <= 72 && size_of::<Fam>() <= 72
}

/// Names of which some differ in their length alone, in one of the first eight bytes, in the last byte, or behind the
/// bytes that stand in the name itself.
const ALIKE: &[&str] = &[
    "a",
    "aa",
    "abcdefgh",
    "abcdefgi",
    "abcdefghabcdef",
    "abcdefghabcdeg",
    "abcdefgiabcdef",
    "abcdefghabcdefg",
    "abcdefghabcdefh",
];

/// Whether each of the names is equal to one of them.
fn are_told_apart(alloc: Global) -> bool {
    for &text in ALIKE {
        if count_equal(alloc, text) != 1 {
            return false;
        }
    }
    true
}

/// How many of the names are equal to that of a text, which is one of them.
fn count_equal(alloc: Global, text: &str) -> usize {
    let mut equal = 0usize;
    for &other in ALIKE {
        if are_equal(alloc, text, other) {
            equal = equal.saturating_add(1);
        }
    }
    equal
}

fn are_equal(alloc: Global, text: &str, other: &str) -> bool {
    match Name::new(alloc, text) {
        Ok(name) => is_equal(&name, Name::new(alloc, other)),
        Err(_) => false,
    }
}

fn is_equal(name: &Name, other: Result<Name, NameFault>) -> bool {
    match other {
        Ok(other) => *name == other,
        Err(_) => false,
    }
}

fn short_path(alloc: Global, text: &str) -> Option<Path> {
    Path::new(alloc, Name::new(alloc, text).ok()?).ok()
}

/// Whether a name could be added to a path.
fn is_longer(alloc: Global, path: &mut Path, text: &str) -> bool {
    match Name::new(alloc, text) {
        Ok(name) => succeeds(path.push(name)),
        Err(_) => false,
    }
}

/// The path `m.a.b.c`.
fn long_path(alloc: Global) -> Option<Path> {
    let mut path = short_path(alloc, "m")?;
    if is_longer(alloc, &mut path, "a")
        && is_longer(alloc, &mut path, "b")
        && is_longer(alloc, &mut path, "c")
    {
        Some(path)
    } else {
        drop(path);
        None
    }
}

/// Whether a path of four names, its copy and its first name are two different paths.
fn are_different(alloc: Global) -> bool {
    match long_path(alloc) {
        Some(path) => path.len() == 4 && count_different(alloc, &path) == 2,
        None => false,
    }
}

fn count_different(alloc: Global, path: &Path) -> usize {
    let mut paths = HashSet::new(alloc);
    let all = is_put(&mut paths, path.copy(alloc).ok())
        && is_put(&mut paths, path.copy(alloc).ok())
        && is_put(&mut paths, short_path(alloc, "m"));
    if all { paths.len() } else { 0 }
}

fn is_put(paths: &mut HashSet<Path>, path: Option<Path>) -> bool {
    match path {
        Some(path) => succeeds(paths.insert(path)),
        None => false,
    }
}

fn grow(alloc: Global) -> bool {
    match long_path(alloc) {
        Some(path) => grows_behind(alloc, path.as_slice()) && grows_behind(alloc, &[]),
        None => false,
    }
}

/// Whether a copy of the path behind a name, which has grown by one, is longer than that path by one name.
fn grows_behind(alloc: Global, path: &[Name]) -> bool {
    match path_behind(alloc, path) {
        Some(behind) => is_copy_longer(alloc, &behind),
        None => false,
    }
}

fn path_behind(alloc: Global, path: &[Name]) -> Option<Path> {
    let first = Name::new(alloc, "s").ok()?;
    Path::of(alloc, &first, path).ok()
}

fn is_copy_longer(alloc: Global, path: &Path) -> bool {
    match path.copy(alloc) {
        Ok(mut copy) => {
            is_longer(alloc, &mut copy, "d") && copy.len().wrapping_sub(path.len()) == 1
        }
        Err(_) => false,
    }
}

fn bytes_grow(alloc: Global) -> bool {
    let mut bytes = Bytes::new(alloc);
    let grown = succeeds(bytes.push(7)) && bytes.extend(&[8, 9]).is_ok();
    let mut again = Bytes::from_vec(bytes.into_vec());
    grown && again.add(10).is_ok() && are_four(&again)
}

fn are_four(bytes: &Bytes) -> bool {
    bytes.as_slice() == [7, 8, 9, 10].as_slice() && bytes.get(4) == None
}

fn texts_grow(alloc: Global) -> bool {
    let mut texts = Texts::new(alloc);
    is_added(alloc, &mut texts, "one") && is_added(alloc, &mut texts, "") && are_two(&texts)
}

fn is_added(alloc: Global, texts: &mut Texts, text: &str) -> bool {
    match String::from_str(alloc, text) {
        Ok(text) => succeeds(texts.push(text)),
        Err(_) => false,
    }
}

fn are_two(texts: &Texts) -> bool {
    match texts.get(0) {
        Some(text) => texts.len() == 2 && text.as_str() == "one",
        None => false,
    }
}

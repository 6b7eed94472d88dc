//! The parts of a row, and what its kind asks.

use crate::judgements::{judges, synthesises};
use crate::laws::{both_give, carries, keeps_typing};
use crate::long_forms::{is_long_form, is_long_value, takes};
use crate::names::{is_name, is_no_name, name_call};
use crate::signatures::{answers, answers_behind};
use crate::spines::spine_call;
use crate::substitutions::{gives, raises, reduces};
use crate::tables::table_call;
use crate::terms::{are_same, is_copied};
use crate::translations::{agrees, differs, lacks, translates};
use std::alloc::Global;
use test_texts::Case;

/// The parts of a row.
#[derive(Clone, Copy)]
pub(crate) struct Row<'a> {
    pub(crate) first: &'a str,
    pub(crate) second: &'a str,
    pub(crate) third: &'a str,
    pub(crate) fourth: &'a str,
    pub(crate) fifth: &'a str,
}

/// The parts of a line. Those that are not there are empty.
fn row_of(line: &str) -> Row<'_> {
    let mut parts = line.split(" ; ");
    Row {
        first: parts.next().unwrap_or(""),
        second: parts.next().unwrap_or(""),
        third: parts.next().unwrap_or(""),
        fourth: parts.next().unwrap_or(""),
        fifth: parts.next().unwrap_or(""),
    }
}

/// The text of a file of the case, without the end of its last line; nothing where there is none.
pub(crate) fn file<'a>(case: &'a Case<'_>, name: &str) -> &'a str {
    for file in case.files.as_slice() {
        if file.0 == name {
            let text = str::from_utf8(file.1.as_slice()).unwrap_or("no text");
            return text.strip_suffix('\n').unwrap_or(text);
        }
    }
    ""
}

/// Whether a row holds. It does not where one of its parts is not what stands there, or memory is wanting.
pub(crate) fn holds(alloc: Global, case: &Case<'_>, line: &str) -> bool {
    let row = row_of(line);
    let (kind, _) = case.head.split_once(':').unwrap_or((case.head, ""));
    match kind {
        "names" => is_name(alloc, line),
        "other texts" => is_no_name(alloc, line),
        "calls on names" => name_call(alloc, line),
        "calls on tables" => table_call(alloc, line),
        "calls on arguments" => spine_call(alloc, line),
        "raised" => raises(alloc, row),
        "same" => are_same(alloc, row.first, row.second),
        "copied" => is_copied(alloc, row.first),
        "substituted" => gives(alloc, row),
        "reduced" => reduces(alloc, row),
        "long forms" => is_long_form(alloc, row),
        "long forms that take arguments" => takes(alloc, row),
        "long values" => is_long_value(alloc, row),
        "whole signatures" => answers(alloc, file(case, row.first), row.second),
        "declarations" => answers_behind(alloc, file(case, "signature"), row.first, row.second),
        "judged" => judges(alloc, case, row.first, row.second),
        "synthesised" => synthesises(alloc, case, row),
        "translated" => translates(alloc, file(case, "map"), row),
        "composed" => agrees(alloc, case, row.first),
        "not composed" => lacks(
            alloc,
            file(case, row.first),
            file(case, "second"),
            row.second,
        ),
        "different" => differs(alloc, case, row),
        "substitution keeps typing" => keeps_typing(alloc, file(case, "signature"), row),
        "substitutions commute" => both_give(alloc, row),
        _ => carries(alloc, case, row.first, row.second),
    }
}

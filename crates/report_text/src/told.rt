//! The line of what is told of a name.
ghost use Rattle.std.specs.Prelude.{◌≡◌, ◌++◌, ◌≤◌, ◌^◌, IfOk, OnOk, codes, length};
ghost use Rattle.std.specs.Option.{option_copied};
ghost use Rattle.library_meaning.specs.Faces.{Environment};
ghost use Rattle.std.specs.Fmt.{decimal};
ghost use Rattle.printing_meaning.specs.Printed.{end_of_line, named_at};
ghost use Rattle.mmt_interface.specs.Readings.{read_refusal, read_verdict};
ghost use Rattle.printing_meaning.specs.VerdictLines.{judged_line, refused_line};
ghost use Rattle.judged_meaning.specs.JudgingByRules.{judged_by, printed_refusal};
ghost use Rattle.report_text.specs.ToldLines.{shown_place, text_or_none, told_text, CanBeTold, Counts, PlacesInFiles, VerdictCounts, VerdictHasPlace};

use lf_terms::{Bytes, Memory, Name};
use mmt_interface::{Interface, Refusal, Verdict};
use mmt_syntax::{Origin, place_of};
use std::alloc::Global;
use term_text::{number, path};
use verdict_board::Told;

/// The line of a verdict, or that the library lacks the name. A refusal needs the module's text, of at most 2^26 bytes, within
/// which it stands. Its place is counted in the text, or with an origin in the file from which the text comes. The number of an
/// accepted module is the one that comes with its verdict.
pub fn told_line(
    alloc: Global,
    name: &Name,
    told: &Told<Verdict>,
    text: Option<&[u8]>,
    origin: Option<&Origin>,
) -> Result<Bytes, Memory>
    requires { CanBeTold told.now (option_copied text) }
    ensures { (environment : Environment) → Counts environment told.now → IfOk result (λ line. line ≡ told_text environment name.now (shown_place (option_copied origin.entry) (text_or_none (option_copied text.entry))) told.now) }
{
    match told {
        Told::Verdict { answer, version } => {
            verdict_line(alloc, name, *version, answer, text, origin)
        }
        Told::Absent { version } => {
            let mut line = front(alloc, name, *version)?;
            line.extend(b" absent")?;
            line.extend(b"\n")?;
            Ok(line)
        }
        Told::Pending { .. } => Ok(Bytes::new(alloc)),
    }
}

/// `N @V`.
pub(crate) fn front(alloc: Global, name: &Name, version: u32) -> Result<Bytes, Memory>
    ensures { IfOk result (λ line. line ≡ named_at name.now version) }
{
    let mut line = Bytes::new(alloc);
    line.extend(name.as_str().as_bytes())?;
    line.extend(b" @")?;
    number(alloc, &mut line, version as u64)?;
    Ok(line)
}

fn verdict_line(
    alloc: Global,
    name: &Name,
    version: u32,
    verdict: &Verdict,
    text: Option<&[u8]>,
    origin: Option<&Origin>,
) -> Result<Bytes, Memory>
    requires { VerdictHasPlace verdict.now (option_copied text) }
    ensures { (environment : Environment) → VerdictCounts environment verdict.now → IfOk result (λ line. line ≡ judged_line environment name.now version (shown_place (option_copied origin.entry) (text_or_none (option_copied text.entry))) (judged_by (read_verdict verdict.now))) }
{
    match verdict {
        Verdict::Accepted(interface) => match interface.get() {
            Interface::Theory { size, .. } => {
                counted_line(alloc, name, version, b" accepted theory ", *size)
            }
            Interface::View(face) => {
                counted_line(
                    alloc,
                    name,
                    version,
                    b" accepted view ",
                    face.map.len() as u64,
                )
            }
        },
        Verdict::Refused(refusal) => match text {
            Some(text) => refused(alloc, name, version, refusal.get(), text, origin),
            None => Ok(Bytes::new(alloc)),
        },
    }
}

/// A line that ends in words and a number behind its name and version.
pub(crate) fn counted_line(
    alloc: Global,
    name: &Name,
    version: u32,
    words: &[u8],
    count: u64,
) -> Result<Bytes, Memory>
    ensures { IfOk result (λ line. line ≡ named_at name.now version ++ words.now ++ decimal count ++ end_of_line) }
{
    let mut line = front(alloc, name, version)?;
    line.extend(words)?;
    number(alloc, &mut line, count)?;
    line.extend(b"\n")?;
    Ok(line)
}

fn refused(
    alloc: Global,
    name: &Name,
    version: u32,
    refusal: &Refusal,
    text: &[u8],
    origin: Option<&Origin>,
) -> Result<Bytes, Memory>
    requires small { length text.now ≤ 2 ^ 26 }
    requires within { refusal.now.span.from ≤ length text.now }
    ensures { IfOk result (λ line. line ≡ refused_line name.now version (shown_place (option_copied origin.entry) text.now refusal.now.span.from) (printed_refusal (read_refusal refusal.now))) }
{
    let mut line = front(alloc, name, version)?;
    line.extend(b" refused ")?;
    shown(alloc, &mut line, text, refusal.span.from, origin)?;
    line.extend(b" ")?;
    line.extend(refusal.rule.word().as_bytes())?;
    line.extend(b" ")?;
    path(&mut line, refusal.label.as_slice())?;
    line.extend(b"\n")?;
    Ok(line)
}

/// Writes `L:C`, or `FILE:L:C` where there is an origin.
fn shown(
    alloc: Global,
    out: &mut Bytes,
    text: &[u8],
    at: u32,
    origin: Option<&Origin>,
) -> Result<(), Memory>
    requires small { length text.now ≤ 2 ^ 26 }
    requires within { at ≤ length text.now }
    ensures { OnOk result (out.new ≡ out.old ++ shown_place (option_copied origin.entry) text.now at) }
{
    let place = place_of(text, at);
    match origin {
        None => counted(alloc, out, place.line as u64, place.column as u64),
        Some(origin) => {
            out.extend(origin.file.as_slice())?;
            out.extend(b":")?;
            let line = origin.first.line as u64 + place.line as u64 - 1;
            let column = if place.line == 1 {
                origin.first.column as u64 + place.column as u64 - 1
            } else {
                place.column as u64
            };
            counted(alloc, out, line, column)
        }
    }
}

/// Writes `L:C`.
fn counted(alloc: Global, out: &mut Bytes, line: u64, column: u64) -> Result<(), Memory>
    ensures { OnOk result (out.new ≡ out.old ++ (decimal line ++ codes ":" ++ decimal column)) }
{
    number(alloc, out, line)?;
    out.extend(b":")?;
    number(alloc, out, column)
}

/// Where a text stands in a file and the origin has the place of its first byte, the place that is shown is the place in the file.
pub fn law_places_in_files()
    ensures { PlacesInFiles }
{}

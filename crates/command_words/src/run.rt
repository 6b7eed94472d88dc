//! What a list of words asks for.
ghost use Rattle.std.specs.Prelude.{◌≡◌, ◌∷◌, map, IfSome};
ghost use Rattle.std.specs.Option.{option_map};
ghost use Rattle.std.specs.String.{string_bytes};
ghost use Rattle.command_words_meaning.specs.WordLists as meant;
ghost use Rattle.command_words.specs.ReadRuns.{read_run, IsWithin};

use crate::task::{Task, task_of};
use crate::workers::{DEFAULT_WORKERS, worker_part};

/// A task, and how many workers are at it: at most 16.
#[derive(Clone, Copy, Debug, PartialEq, Eq)]
pub struct Run<'w> {
    pub task: Task<'w>,
    pub workers: u32,
}

fn without_part<'w>(word: &str, words: &'w [String]) -> Option<Run<'w>>
    ensures { option_map read_run result ≡ meant.without_part word.now (map string_bytes words.now) }
{
    let task = task_of(word, words)?;
    Some(Run {
        task,
        workers: DEFAULT_WORKERS,
    })
}

fn with_part<'w>(word: &str, words: &'w [String], part: &[String]) -> Option<Run<'w>>
    ensures { option_map read_run result ≡ meant.with_part word.now (map string_bytes words.now) (map string_bytes part.now) }
{
    let task = task_of(word, words)?;
    let workers = worker_part(part)?;
    Some(Run { task, workers })
}

/// A worker part of so many words, or of fewer where there are fewer, stands directly behind the first word.
fn part_in_front<'w>(word: &str, words: &'w [String], count: usize) -> Option<Run<'w>>
    ensures { option_map read_run result ≡ meant.part_in_front word.now (map string_bytes words.now) count }
{
    let (part, rest) = words.split_at(count.min(words.len()));
    with_part(word, rest, part)
}

/// Such a worker part stands at the end.
fn part_at_end<'w>(word: &str, words: &'w [String], count: usize) -> Option<Run<'w>>
    ensures { option_map read_run result ≡ meant.part_at_end word.now (map string_bytes words.now) count }
{
    let (rest, part) = words.split_at(words.len().saturating_sub(count));
    with_part(word, rest, part)
}

/// What a command's first word and the words behind it ask for.
fn run_behind<'w>(word: &str, words: &'w [String]) -> Option<Run<'w>>
    ensures { option_map read_run result ≡ meant.run_of (word.now ∷ map string_bytes words.now) }
{
    without_part(word, words)
        .or_else(|| part_in_front(word, words, 1))
        .or_else(|| part_in_front(word, words, 2))
        .or_else(|| part_at_end(word, words, 1))
        .or_else(|| part_at_end(word, words, 2))
}

/// What the words ask for, where they are an accepted list: a command with at most one worker part, which stands directly
/// behind the command's first word or at the end. Every other list gives `None`. It takes no memory.
pub fn run_of(words: &[String]) -> Option<Run<'_>>
    ensures asks { option_map read_run result ≡ meant.run_of (map string_bytes words.now) }
    ensures within { IfSome result IsWithin }
{
    let (word, words) = words.split_first()?;
    run_behind(word, words)
}

//! The tasks of the program, and the words that ask for them.
ghost use Rattle.std.specs.Prelude.{◌≡◌, map};
ghost use Rattle.std.specs.Option.{option_map};
ghost use Rattle.std.specs.String.{string_bytes};
ghost use Rattle.command_words_meaning.specs.WordLists as meant;
ghost use Rattle.command_words.specs.ReadRuns.{read_task};

use crate::number::number_between;

/// The greatest number with which the generator begins, 2^31 - 1.
const GREATEST_START: u32 = (1 << 31) - 1;

/// What a command asks for.
#[derive(Clone, Copy, Debug, PartialEq, Eq)]
pub enum Task<'w> {
    /// A script is played.
    Play,
    /// The modules of this folder are checked. The word is not empty and does not begin with `-`.
    CheckFolder(&'w str),
    /// The generator makes so many modules and edits, beginning with this number: `start` is below 2^31, `modules` is from
    /// 1 to 1,000, and `edits` is at most 1,000.
    Generate {
        start: u32,
        modules: u32,
        edits: u32,
    },
}

/// Whether the word is a folder.
fn is_folder(word: &str) -> bool
    ensures { result ≡ meant.is_folder word.now }
{
    match word.as_bytes() {
        [] => false,
        [first, ..] => *first != b'-',
    }
}

fn play_of(words: &[String]) -> Option<Task<'_>>
    ensures { option_map read_task result ≡ meant.play_of (map string_bytes words.now) }
{
    words.is_empty().then_some(Task::Play)
}

fn check_of(words: &[String]) -> Option<Task<'_>>
    ensures { option_map read_task result ≡ meant.check_of (map string_bytes words.now) }
{
    match words {
        [folder] if is_folder(folder) => Some(Task::CheckFolder(folder)),
        _ => None,
    }
}

fn generate_by<'w>(start: &str, modules: &str, edits: &str) -> Option<Task<'w>>
    ensures { option_map read_task result ≡ meant.generate_by start.now modules.now edits.now }
{
    Some(Task::Generate {
        start: number_between(0, GREATEST_START, start)?,
        modules: number_between(1, 1000, modules)?,
        edits: number_between(0, 1000, edits)?,
    })
}

fn generate_of(words: &[String]) -> Option<Task<'_>>
    ensures { option_map read_task result ≡ meant.generate_of (map string_bytes words.now) }
{
    match words {
        [start, modules, edits] => generate_by(start, modules, edits),
        _ => None,
    }
}

/// The task of a command's first word and the words behind it.
pub(crate) fn task_of<'w>(word: &str, words: &'w [String]) -> Option<Task<'w>>
    ensures { option_map read_task result ≡ meant.task_of word.now (map string_bytes words.now) }
{
    match word {
        "play" => play_of(words),
        "check" => check_of(words),
        "gen" => generate_of(words),
        _ => None,
    }
}

//! The worker part of the words.
ghost use Rattle.std.specs.Prelude.{◌≡◌, [], ◌∷◌, map};
ghost use Rattle.std.specs.String.{string_bytes};
ghost use Rattle.command_words_meaning.specs.WordLists as meant;

use crate::number::number_between;

/// The number of workers where the words name none.
pub(crate) const DEFAULT_WORKERS: u32 = 4;

fn workers_of(word: &str) -> Option<u32>
    ensures { result ≡ meant.workers_of word.now }
{
    number_between(0, 16, word)
}

/// How many workers the word `--workers=N` is for.
fn joined_part(word: &str) -> Option<u32>
    ensures { result ≡ meant.worker_part (word.now ∷ []) }
{
    workers_of(word.strip_prefix("--workers=")?)
}

/// How many workers the words `--workers` and N are for.
fn parted_part(option: &str, number: &str) -> Option<u32>
    ensures { result ≡ meant.worker_part (option.now ∷ number.now ∷ []) }
{
    if option == "--workers" {
        workers_of(number)
    } else {
        None
    }
}

/// How many workers the words are a worker part for, in either spelling.
pub(crate) fn worker_part(words: &[String]) -> Option<u32>
    ensures { result ≡ meant.worker_part (map string_bytes words.now) }
{
    match words {
        [word] => joined_part(word),
        [option, number] => parted_part(option, number),
        _ => None,
    }
}

//! The law of the lists of words.

ghost use Rattle.command_words_laws.specs.WordLaws.{WorkersAreBounded, TasksAreInRange, WordsAreAnswered, RunsAreAsked};

/// Accepted words ask for at most 16 workers, and for a task within its ranges. Each list of words either asks for
/// exactly one run, which begins, or for none, and is answered by the usage line.
pub fn law_words()
    ensures workers { WorkersAreBounded }
    ensures ranges { TasksAreInRange }
    ensures answered { WordsAreAnswered }
    ensures asked { RunsAreAsked }
{}

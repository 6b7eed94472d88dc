// Laws about the answers of a reader. Each is the contract of a function that does nothing.

ghost use Rattle.reading_laws.specs.AnswerLaws.{TokensHaveOneAnswer, EachTextHasOneReading, TextsSpellOneTree};
ghost use Rattle.reading_laws.specs.ReadingExamples.{ReadingExamples};

/// Tokens with the end of the input behind them spell a tree or have exactly one fault, and `parse` answers it.
pub fn law_one_answer()
    ensures { TokensHaveOneAnswer }
{}

/// Each text spells a tree or has exactly one fault, and `read` answers it. Two trees of one text are equal, however deep.
pub fn law_one_reading()
    ensures reading { EachTextHasOneReading }
    ensures trees { TextsSpellOneTree }
{}

/// Small texts are read as the grammar and the rules of stopping say.
pub fn law_reading_examples()
    ensures { ReadingExamples }
{}

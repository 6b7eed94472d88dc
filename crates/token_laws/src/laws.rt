// Laws about the cut of a text into tokens. Each is the contract of a function that does nothing.

ghost use Rattle.token_laws.specs.CutExamples.{CutExamples};
ghost use Rattle.token_laws.specs.CutLaws.{EachTextHasOneCut};
ghost use Rattle.token_laws.specs.PrintedLaws.{PrintedTokensAreCut};
ghost use Rattle.token_laws.specs.SpanLaws.{TokensStandWell};

/// Each text has tokens or exactly one of the two faults, and `lex` gives it.
pub fn law_one_cut()
    ensures { EachTextHasOneCut }
{}

/// Small texts are cut as the table of tokens says.
pub fn law_cut_examples()
    ensures { CutExamples }
{}

/// The tokens of a text stand in order, inside the text and apart, and each holds its bytes.
pub fn law_spans()
    ensures { TokensStandWell }
{}

/// A text of tokens with white space behind each is cut into these tokens.
pub fn law_printed_tokens()
    ensures { PrintedTokensAreCut }
{}

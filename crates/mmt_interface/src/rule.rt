//! The rules that a text can break (this profile).
ghost use Rattle.std.specs.Prelude.{◌≡◌};
ghost use Rattle.judged_meaning.specs.Below.Rules.{number_of, word_of};
ghost use Rattle.mmt_interface.specs.ReadRules.{read_rule};

/// A rule that a text can break. Its number is its place in this list, counted from 1; numbers name the rules and say
/// nothing of the order of tests.
#[derive(Clone, Copy, Debug, PartialEq, Eq)]
pub enum Rule {
    Syntax = 1,
    TooDeep = 2,
    Unsupported = 3,
    WrongName = 4,
    Cycle = 5,
    UnknownModule = 6,
    WrongModuleKind = 7,
    DependencyRefused = 8,
    DuplicateName = 9,
    UnknownName = 10,
    AmbiguousName = 11,
    Level = 12,
    NotAFunction = 13,
    NotCanonical = 14,
    Mismatch = 15,
    Annotation = 16,
    UnknownTarget = 17,
    DoubleAssignment = 18,
    MissingAssignment = 19,
    DefinitionClash = 20,
    IncludeNotCovered = 21,
    MorphismsDisagree = 22,
    MorphismEnds = 23,
    FamilyNotAtomic = 24,
}

impl Rule {
    /// The word that is printed for the rule.
    pub fn word(self) -> &'static str
        ensures { result.now ≡ word_of (read_rule self) }
    {
        match self {
            Rule::Syntax => "syntax",
            Rule::TooDeep => "too-deep",
            Rule::Unsupported => "unsupported",
            Rule::WrongName => "wrong-name",
            Rule::Cycle => "cycle",
            Rule::UnknownModule => "unknown-module",
            Rule::WrongModuleKind => "wrong-module-kind",
            Rule::DependencyRefused => "dependency-refused",
            Rule::DuplicateName => "duplicate-name",
            Rule::UnknownName => "unknown-name",
            Rule::AmbiguousName => "ambiguous-name",
            Rule::Level => "level",
            Rule::NotAFunction => "not-a-function",
            Rule::NotCanonical => "not-canonical",
            Rule::Mismatch => "mismatch",
            Rule::Annotation => "annotation",
            Rule::UnknownTarget => "unknown-target",
            Rule::DoubleAssignment => "double-assignment",
            Rule::MissingAssignment => "missing-assignment",
            Rule::DefinitionClash => "definition-clash",
            Rule::IncludeNotCovered => "include-not-covered",
            Rule::MorphismsDisagree => "morphisms-disagree",
            Rule::MorphismEnds => "morphism-ends",
            Rule::FamilyNotAtomic => "family-not-atomic",
        }
    }

    /// The number of the rule, from 1 to 24.
    pub fn number(self) -> u8
        ensures { result ≡ number_of (read_rule self) }
    {
        self as u8
    }
}

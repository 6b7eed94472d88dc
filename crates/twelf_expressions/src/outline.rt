//! What is open in an expression that is passed over.
ghost use Rattle.std.specs.Prelude.{◌≡◌};
ghost use Rattle.twelf_expressions.specs.Outlines.{takes_arrow, takes_back_arrow};

use crate::frame::Brace;
use crate::level::Level;

/// Where an operand stands: first, after `->`, or after `<-`.
#[derive(Clone, Copy, Debug)]
pub(crate) enum Stand {
    Plain,
    AfterArrow,
    AfterBack,
}

/// An operand that is passed over: its nesting, where it stands, and whether it has atoms.
#[derive(Clone, Copy, Debug)]
pub(crate) struct Outline {
    pub level: Level,
    pub stand: Stand,
    pub begun: bool,
}

/// A bracket before an expression. An operand goes on behind parentheses: its nesting, and where it stands. Behind the
/// domain of a binder its body begins, one nesting deeper than the binder.
#[derive(Clone, Copy)]
pub(crate) enum Bracket {
    Parens(Level, Stand),
    Domain(Brace, Level),
}

/// The operand that is passed over, and the brackets that are open before it, the innermost last.
#[derive(Drop)]
pub(crate) struct Open {
    pub brackets: Vec<Bracket>,
    pub operand: Outline,
}

impl Outline {
    /// Whether an arrow may follow: there are atoms, and no row of back arrows.
    pub(crate) fn takes_arrow(self) -> bool
        ensures { result ≡ takes_arrow self.begun self.stand }
    {
        match (self.begun, self.stand) {
            (false, _) => false,
            (true, Stand::Plain) => true,
            (true, Stand::AfterArrow) => true,
            (true, Stand::AfterBack) => false,
        }
    }

    /// Whether a back arrow may follow: there are atoms, and no row of arrows.
    pub(crate) fn takes_back_arrow(self) -> bool
        ensures { result ≡ takes_back_arrow self.begun self.stand }
    {
        match (self.begun, self.stand) {
            (false, _) => false,
            (true, Stand::Plain) => true,
            (true, Stand::AfterArrow) => false,
            (true, Stand::AfterBack) => true,
        }
    }
}

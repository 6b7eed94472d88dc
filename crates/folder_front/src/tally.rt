//! How many modules are accepted, and how many are refused.
ghost use Rattle.std.specs.Prelude.{◌≡◌, ◌+◌, ◌<◌};
ghost use Rattle.folder_front.specs.Sheets.{counted};

/// How many modules are accepted, and how many are refused.
#[derive(Clone, Copy)]
pub(crate) struct Tally {
    pub(crate) accepted: u32,
    pub(crate) refused: u32,
}

impl Tally {
    /// Counts one module more.
    pub(crate) fn count(&mut self, is_accepted: bool)
        requires { self.old.accepted + self.old.refused < 4096 }
        ensures { self.new ≡ counted self.old is_accepted }
    {
        if is_accepted {
            self.accepted += 1;
        } else {
            self.refused += 1;
        }
    }
}

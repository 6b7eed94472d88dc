//! The usage line.
ghost use Rattle.std.specs.Prelude.{◌≡◌};
ghost use Rattle.printing_meaning.specs.Printed.{usage_line};

/// The line that answers words that are no accepted list, its line end included.
pub fn usage_line() -> &'static [u8]
    ensures { result.now ≡ usage_line }
{
    b"usage: mmt play [--workers N] | mmt check FOLDER [--workers N] | mmt gen START MODULES EDITS [--workers N]\n"
}

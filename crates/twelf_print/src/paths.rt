//! Paths and single tokens.
ghost use Rattle.std.specs.Prelude.{◌≡◌, ◌++◌, OnOk};
ghost use Rattle.text_meaning.specs.Tokens.{spelled};

use lf_terms::{Bytes, Memory, Path};

/// The names of a path, joined by single dots, and the gap behind.
pub(crate) fn path(out: &mut Bytes, path: &Path, gap: &[u8]) -> Result<(), Memory>
    ensures ok { OnOk result (out.new ≡ out.old ++ (spelled path.now ++ gap.now)) }
{
    names(out, path)?;
    out.extend(gap)
}

fn names(out: &mut Bytes, path: &Path) -> Result<(), Memory>
    ensures ok { OnOk result (out.new ≡ out.old ++ spelled path.now) }
{
    let Some((first, others)) = path.as_slice().split_first() else {
        return Ok(());
    };
    out.extend(first.as_str().as_bytes())?;
    for name in others {
        out.extend(b".")?;
        out.extend(name.as_str().as_bytes())?;
    }
    Ok(())
}

/// A token's bytes, and the gap behind.
pub(crate) fn word(out: &mut Bytes, bytes: &[u8], gap: &[u8]) -> Result<(), Memory>
    ensures ok { OnOk result (out.new ≡ out.old ++ (bytes.now ++ gap.now)) }
{
    out.extend(bytes)?;
    out.extend(gap)
}

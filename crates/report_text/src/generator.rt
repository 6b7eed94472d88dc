//! The two lines of the generator.
ghost use Rattle.std.specs.Prelude.{◌≡◌, IfOk};
ghost use Rattle.printing_meaning.specs.GeneratorLines as printed;

use lf_terms::{Bytes, Memory};
use std::alloc::Global;
use term_text::number;

/// `gen modules M edits E version V accepted A refused R declarations D`.
pub fn gen_line(
    alloc: Global,
    modules: u32,
    edits: u32,
    version: u32,
    accepted: u32,
    refused: u32,
    declarations: u64,
) -> Result<Bytes, Memory>
    ensures { IfOk result (λ line. line ≡ printed.generator_line (record { modules = modules; edits = edits; version = version; accepted = accepted; refused = refused; declarations = declarations })) }
{
    let mut line = Bytes::new(alloc);
    line.extend(b"gen modules ")?;
    number(alloc, &mut line, modules as u64)?;
    line.extend(b" edits ")?;
    number(alloc, &mut line, edits as u64)?;
    line.extend(b" version ")?;
    number(alloc, &mut line, version as u64)?;
    line.extend(b" accepted ")?;
    number(alloc, &mut line, accepted as u64)?;
    line.extend(b" refused ")?;
    number(alloc, &mut line, refused as u64)?;
    line.extend(b" declarations ")?;
    number(alloc, &mut line, declarations)?;
    line.extend(b"\n")?;
    Ok(line)
}

/// `installs I`.
pub fn installs_line(alloc: Global, installs: u64) -> Result<Bytes, Memory>
    ensures { IfOk result (λ line. line ≡ printed.installs_line installs) }
{
    let mut line = Bytes::new(alloc);
    line.extend(b"installs ")?;
    number(alloc, &mut line, installs)?;
    line.extend(b"\n")?;
    Ok(line)
}

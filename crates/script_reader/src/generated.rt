//! The edits of the generator.
ghost use Rattle.std.specs.Prelude.{◌≡◌, ◌++◌, IfOk, OnOk, codes};
ghost use Rattle.std.specs.String.{string_bytes};
ghost use Rattle.std.specs.Fmt.{decimal};
ghost use Rattle.run_meaning.specs.Generator as meant;
ghost use Rattle.edit_log.specs.Readings.{read_edit};

use crate::draws::draw_below;
use edit_log::Edit;
use lf_terms::{Arc, Bytes, Memory, Name, NameFault};
use std::alloc::Global;

fn extend_number(alloc: Global, text: &mut Bytes, number: u32) -> Result<(), Memory>
    ensures { OnOk result (text.new ≡ text.old ++ decimal number) }
{
    text.extend(number.to_string(alloc)?.as_bytes())
}

fn name_text(alloc: Global, index: u32) -> Result<String, Memory>
    ensures { IfOk result (λ text. string_bytes text ≡ meant.module_name index) }
{
    let mut text = String::new(alloc);
    text.push_str("G")?;
    text.push_str(index.to_string(alloc)?.as_str())?;
    Ok(text)
}

fn module_name(alloc: Global, index: u32) -> Result<Name, Memory>
    ensures { IfOk result (λ name. name ≡ meant.module_name index) }
{
    let text = name_text(alloc, index)?;
    match Name::new(alloc, text.as_str()) {
        Ok(name) => Ok(name),
        Err(NameFault::NotAName) => unreachable!(),
        Err(NameFault::Memory) => Err(Memory),
    }
}

/// Writes the lines of a parent of this name.
fn extend_parent(text: &mut Bytes, parent: &Name) -> Result<(), Memory>
    ensures { OnOk result (text.new ≡ text.old ++ (codes "%include " ++ parent.now ++ codes ".\n%struct s : " ++ parent.now ++ codes ".\n")) }
{
    text.extend(b"%include ")?;
    text.extend(parent.as_str().as_bytes())?;
    text.extend(b".\n%struct s : ")?;
    text.extend(parent.as_str().as_bytes())?;
    text.extend(b".\n")
}

/// Writes the lines of the parent of the module with this index. The first module has none.
fn extend_parent_of(alloc: Global, text: &mut Bytes, start: u32, index: u32) -> Result<(), Memory>
    ensures { OnOk result (text.new ≡ text.old ++ meant.parent_lines start index) }
{
    if index == 0 {
        return Ok(());
    }
    let parent = module_name(alloc, draw_below(start, index, index))?;
    extend_parent(text, &parent)
}

/// The text of the module of this name and index.
fn module_text(
    alloc: Global,
    name: &Name,
    start: u32,
    index: u32,
    revision: u32,
) -> Result<Bytes, Memory>
    requires { name.now ≡ meant.module_name index }
    ensures { IfOk result (λ text. text ≡ meant.module_text start index revision) }
{
    let mut text = Bytes::new(alloc);
    text.extend(b"%sig ")?;
    text.extend(name.as_str().as_bytes())?;
    text.extend(b" = {\n")?;
    extend_parent_of(alloc, &mut text, start, index)?;
    text.extend(b"t : type.\nc")?;
    extend_number(alloc, &mut text, revision)?;
    text.extend(b" : t.\n}.\n")?;
    Ok(text)
}

/// The edit that puts a module in a revision.
pub(crate) fn generated_put(
    alloc: Global,
    start: u32,
    index: u32,
    revision: u32,
) -> Result<Edit, Memory>
    ensures { IfOk result (λ edit. read_edit edit ≡ meant.generated_put start index revision) }
{
    let name = module_name(alloc, index)?;
    let text = module_text(alloc, &name, start, index, revision)?;
    Ok(Edit::Put {
        name,
        text: Arc::new(alloc, text)?,
    })
}

//! Names in hash tables.
ghost use Rattle.std.specs.Prelude.{◌≡◌, ◌||◌, OnOk};
ghost use Rattle.name_meaning.specs.Names.{Name as BytesOfName, same_name};
ghost use Rattle.library_meaning.specs.Closure.{sees};

use indexmap::IndexSet;
use lf_terms::{Memory, Name};
use std::alloc::Global;

/// Adds a name.
pub(crate) fn add(alloc: Global, table: &mut IndexSet<Name>, name: &Name) -> Result<(), Memory>
    ensures { OnOk result ((other : BytesOfName) → sees table.new.keys other ≡ (sees table.old.keys other || same_name other name.now)) }
{
    table.insert(name.copy(alloc)?)?;
    Ok(())
}

/// Adds names.
pub(crate) fn add_all(
    alloc: Global,
    table: &mut IndexSet<Name>,
    names: &[Name],
) -> Result<(), Memory>
    ensures { OnOk result ((other : BytesOfName) → sees table.new.keys other ≡ (sees table.old.keys other || sees names.now other)) }
{
    for name in names {
        add(alloc, table, name)?;
    }
    Ok(())
}

/// Whether the table has the name. It takes expected constant time.
pub(crate) fn has(table: &IndexSet<Name>, name: &Name) -> bool
    ensures { result ≡ sees table.now.keys name.now }
{
    table.contains(name)
}

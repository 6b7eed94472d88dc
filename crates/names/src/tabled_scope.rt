//! Scopes that may have a table.
ghost use Rattle.std.specs.Prelude.{◌≡◌};
ghost use Rattle.std.specs.Option.{option_copied};
ghost use Rattle.names.specs.Scopes.{read_scope};
ghost use Rattle.names.specs.IncludedTables.{IsTableOf};

use crate::{IncludedTable, Scope};

/// A scope, and, if one was made, the table of what its included theories have at each path. With a table, a look-up does not go over
/// the included theories.
#[derive(Clone, Copy, Debug)]
pub struct TabledScope<'a> {
    scope: Scope<'a>,
    table: Option<&'a IncludedTable>,
    ghost fits: { IsTableOf (option_copied table) (read_scope scope) },
}

impl<'a> TabledScope<'a> {
    /// The scope, with the table of what it includes, if one was made.
    pub fn new(scope: Scope<'a>, table: Option<&'a IncludedTable>) -> TabledScope<'a>
        requires { IsTableOf (option_copied table) (read_scope scope) }
        ensures { read_scope result.scope ≡ read_scope scope.entry }
    {
        TabledScope { scope, table }
    }

    /// The scope.
    pub fn scope(&self) -> &Scope<'a>
        ensures { result.now ≡ self.now.scope }
    {
        &self.scope
    }

    /// The table, if there is one.
    pub(crate) fn table(&self) -> Option<&'a IncludedTable>
        ensures { IsTableOf (option_copied result) (read_scope self.now.scope) }
    {
        self.table
    }
}

//! The table of what a theory includes, made once it is worth its price.
ghost use Rattle.std.specs.Prelude.{◌≡◌, None, OnOk};
ghost use Rattle.std.specs.Option.{option_copied};
ghost use Rattle.mmt_syntax.specs.Readings.{read_decl};
ghost use Rattle.mmt_interface.specs.Readings.{environment_of};
ghost use Rattle.module_verdicts.specs.DueTables.{FitsDeclaration, FitsIncludes};

use lf_terms::{Memory, Names};
use mmt_interface::Faces;
use mmt_syntax::{Decl, Expr};
use names::IncludedTable;
use std::alloc::Global;

/// The table of what a theory includes, if it is made. A look-up without it goes over all included theories, and the table is made
/// from all their constants: so it is made once look-ups will have cost as much.
#[derive(Drop)]
pub(crate) struct DueTable {
    table: Option<IncludedTable>,
    passes: Passes,
}

impl DueTable {
    /// No table.
    pub(crate) fn new() -> DueTable
        ensures { result.table ≡ None }
    {
        DueTable {
            table: None,
            passes: Passes::new(),
        }
    }

    /// The table, if it is made.
    pub(crate) fn table(&self) -> Option<&IncludedTable>
        ensures { option_copied result ≡ self.now.table }
    {
        self.table.as_ref()
    }

    /// Before a declaration: before an inclusion the table goes, since it may bring theories; before a constant it is made, if it is
    /// due.
    pub(crate) fn prepare(
        &mut self,
        alloc: Global,
        faces: &Faces,
        includes: &Names,
        decl: &Decl,
    ) -> Result<(), Memory>
        requires { FitsIncludes self.old.table includes.now (environment_of faces.now) }
        ensures { OnOk result (FitsDeclaration self.new.table includes.now (environment_of faces.now) (read_decl decl.now)) }
    {
        match decl {
            Decl::Include(_) => {
                self.forget();
                Ok(())
            }
            Decl::Struct(_) => Ok(()),
            Decl::Const { class, value, .. } => {
                self.make_if_due(alloc, faces, includes, bytes_of_both(class, value))
            }
        }
    }

    /// Lets the table go.
    fn forget(&mut self)
        ensures { self.new.table ≡ None }
    {
        self.table = None;
        self.passes = Passes::new();
    }

    /// Makes the table, if there is none and it is due before names in so many bytes are looked up.
    fn make_if_due(
        &mut self,
        alloc: Global,
        faces: &Faces,
        includes: &Names,
        bytes: usize,
    ) -> Result<(), Memory>
        requires { FitsIncludes self.old.table includes.now (environment_of faces.now) }
        ensures { OnOk result (FitsIncludes self.new.table includes.now (environment_of faces.now)) }
    {
        if self.table.is_some() {
            return Ok(());
        }
        if !self.passes.is_due(faces, includes, bytes) {
            return Ok(());
        }
        self.table = Some(IncludedTable::new(alloc, includes.as_slice(), faces)?);
        Ok(())
    }
}

/// How many theories look-ups went over while there was no table, as far as the length of the expressions tells.
#[derive(Clone, Copy)]
struct Passes {
    passed: usize,
    /// Before so many, the constants are not counted again.
    next_count: usize,
}

impl Passes {
    /// No look-up.
    fn new() -> Passes {
        Passes {
            passed: 0,
            next_count: 1,
        }
    }

    /// Adds the look-ups of names in so many bytes; whether a table is due then. The constants are counted only where the passes have
    /// doubled since the last time, so that counting costs no more than the look-ups do.
    fn is_due(&mut self, faces: &Faces, includes: &Names, bytes: usize) -> bool {
        let passes = (bytes / BYTES_OF_A_NAME).saturating_mul(includes.len());
        self.passed = self.passed.saturating_add(passes);
        if includes.len() < FEW_THEORIES || self.passed < self.next_count {
            return false;
        }
        self.next_count = self.passed.saturating_mul(2);
        has_at_most(faces, includes, self.passed / PASSES_OF_A_CONSTANT)
    }
}

/// An expression has about so many bytes for each name of a constant in it.
const BYTES_OF_A_NAME: usize = 8;

/// Over fewer included theories no table is made.
const FEW_THEORIES: usize = 16;

/// A constant in a table costs about as much as a look-up in so many theories.
const PASSES_OF_A_CONSTANT: usize = 4;

/// Whether these theories have at most so many own constants.
fn has_at_most(faces: &Faces, theories: &Names, most: usize) -> bool {
    let mut left = most;
    for theory in theories.as_slice() {
        let Some(face) = faces.theory(theory) else {
            continue;
        };
        match left.checked_sub(face.own.len()) {
            Some(rest) => left = rest,
            None => return false,
        }
    }
    true
}

/// The bytes of a class and of a value, if there is one.
fn bytes_of_both(class: &Expr, value: &Option<Expr>) -> usize {
    let bytes = bytes_of(class);
    match value {
        Some(value) => bytes.saturating_add(bytes_of(value)),
        None => bytes,
    }
}

/// The bytes of an expression.
fn bytes_of(expr: &Expr) -> usize {
    (expr.span.to as usize).saturating_sub(expr.span.from as usize)
}

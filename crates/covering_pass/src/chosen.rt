//! Theories with the covering with which their others are compared.
ghost use Rattle.std.specs.Prelude.{◌≡◌, IfOk};
ghost use Rattle.std.specs.Option.{option_map};
ghost use Rattle.link_meaning.specs.Assignments as links;
ghost use Rattle.link_meaning.specs.Coverings as meant;
ghost use Rattle.term_trees.specs.Readings.{read_constant, read_value};
ghost use Rattle.covering_pass.specs.CoverTables.{value_chosen};

use crate::covering::{Covering, value_of};
use lf_terms::{FlatSig, Memory, Name, QName, Value};
use std::alloc::Global;

/// A theory, its own part if it is accepted, and its covering with which the others are compared, if it has one.
#[derive(Clone, Copy)]
pub(crate) struct Chosen<'a> {
    pub theory: &'a Name,
    pub own: Option<&'a FlatSig>,
    pub covering: Option<Covering<'a>>,
}

/// The value that this covering gives to a constant.
pub(crate) fn value_at(
    alloc: Global,
    chosen: Chosen<'_>,
    constant: &QName,
) -> Result<Option<Value>, Memory>
    ensures { IfOk result (λ value. option_map read_value value ≡ value_chosen chosen.entry (read_constant constant.now)) }
{
    match chosen.covering {
        Some(covering) => value_of(alloc, covering, chosen.own, constant),
        None => Ok(None),
    }
}

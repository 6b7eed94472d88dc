//! Variables that are given.
ghost use Rattle.std.specs.Prelude.{◌≡◌, ◌≤◌, ◌^◌, IfOk, length};

use lf_terms::Memory;
use names::Vars;

/// Variables that are few enough for indices.
#[derive(Clone, Copy)]
pub(crate) struct GivenVariables<'a> {
    vars: &'a Vars,
    ghost few: { length vars.now ≤ 2 ^ 32 },
}

impl<'a> GivenVariables<'a> {
    /// More variables than an index can name are want of memory.
    pub(crate) fn new(vars: &'a Vars) -> Result<GivenVariables<'a>, Memory>
        ensures { IfOk result (λ given. given.vars.now ≡ vars.now) }
    {
        if vars.len() > u32::MAX as usize {
            return Err(Memory);
        }
        Ok(GivenVariables { vars })
    }

    pub(crate) fn get(&self) -> &'a Vars
        ensures same { result.now ≡ self.now.vars.now }
        ensures few { length result.now ≤ 2 ^ 32 }
    {
        self.vars
    }
}

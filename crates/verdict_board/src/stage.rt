//! How the modules of the library stand.
ghost use Rattle.std.specs.Prelude.{◌≡◌, IfOk};
ghost use Rattle.std.specs.Option.{option_copied};
ghost use Rattle.name_meaning.specs.Names.{is_ascending, is_among};
ghost use Rattle.verdict_board.specs.Marks.{bit_of};
ghost use Rattle.verdict_board.specs.Stages.{answer_in, claim_in, falls, is_waiting, standing_in, stage_after, HasSortedInputs};

use crate::marked_names::{MarkedNames, bit_of};
use lf_terms::{Memory, Name, Names};
use module_graph::Subject;

/// How a module of the library stands. An open claim is current where the stamps of its inputs are unchanged.
#[derive(Drop)]
pub enum Stage<A> {
    /// It is grounded, has no standing verdict and no current claim.
    Waiting,
    /// It is grounded, has no standing verdict, and this claim of it is current; with the names of the claim's inputs.
    Claimed { claim: u64, inputs: MarkedNames },
    /// It has a standing verdict; with the names of the inputs.
    Standing { answer: A, inputs: MarkedNames },
    /// It is ungrounded.
    Cyclic { answer: A },
}

impl<A> Stage<A> {
    /// The answer, if it may be told.
    pub fn answer(&self) -> Option<&A>
        ensures { option_copied result ≡ answer_in self.now }
    {
        match self {
            Stage::Standing { answer, .. } | Stage::Cyclic { answer } => Some(answer),
            Stage::Waiting | Stage::Claimed { .. } => None,
        }
    }

    /// Whether it waits for a claim.
    pub fn is_waiting(&self) -> bool
        ensures { result ≡ is_waiting self.now }
    {
        matches!(self, Stage::Waiting)
    }

    /// Whether it does not stay after an edit of a name, the place of whose bit is given, if the module is grounded then.
    pub fn falls(&self, edited: &Name, bit: u32) -> bool
        requires sorted { HasSortedInputs self.now }
        requires bit { bit ≡ bit_of edited.now }
        ensures { result ≡ falls edited.now self.now }
    {
        match self {
            Stage::Waiting => false,
            Stage::Claimed { inputs, .. } | Stage::Standing { inputs, .. } => {
                inputs.contains(edited, bit)
            }
            Stage::Cyclic { .. } => true,
        }
    }

    /// The current claim, if there is one.
    pub fn claim(&self) -> Option<u64>
        ensures { result ≡ claim_in self.now }
    {
        match self {
            Stage::Claimed { claim, .. } => Some(*claim),
            Stage::Waiting | Stage::Standing { .. } | Stage::Cyclic { .. } => None,
        }
    }

    /// The names of the inputs of the standing verdict, if there is one.
    pub fn standing(&self) -> Option<&Names>
        ensures { option_copied result ≡ standing_in self.now }
    {
        match self {
            Stage::Standing { inputs, .. } => Some(inputs.get()),
            Stage::Waiting | Stage::Claimed { .. } | Stage::Cyclic { .. } => None,
        }
    }

    /// The same with their bits.
    pub fn reached(&self) -> Option<&MarkedNames>
        ensures { option_copied result ≡ standing_in self.now }
    {
        match self {
            Stage::Standing { inputs, .. } => Some(inputs),
            Stage::Waiting | Stage::Claimed { .. } | Stage::Cyclic { .. } => None,
        }
    }
}

/// How a module stands after an edit of a name, if it is grounded then.
pub fn after_edit<S: Subject>(
    stage: &Stage<S::Answer>,
    edited: &Name,
) -> Result<Stage<S::Answer>, Memory>
    requires { HasSortedInputs stage.now }
    ensures { IfOk result (λ after. after ≡ stage_after edited.now stage.now) }
{
    if stage.falls(edited, bit_of(edited)) {
        return Ok(Stage::Waiting);
    }
    match stage {
        Stage::Waiting | Stage::Cyclic { .. } => Ok(Stage::Waiting),
        Stage::Claimed { claim, inputs } => Ok(Stage::Claimed {
            claim: *claim,
            inputs: inputs.share()?,
        }),
        Stage::Standing { answer, inputs } => Ok(Stage::Standing {
            answer: S::share(answer)?,
            inputs: inputs.share()?,
        }),
    }
}

//! What a worker is handed.
ghost use Rattle.std.specs.Prelude.{◌≡◌, ◌≤◌, length};
ghost use Rattle.name_meaning.specs.Limits.{text_limit};
ghost use Rattle.verdict_board.specs.Readings.{read_inputs};

use crate::Inputs;
use crate::marked_names::MarkedNames;
use lf_terms::{Arc, Bytes, Name};
use module_graph::{Answers, Subject};
use std::marker::Model;

/// A claimed module with all that its verdict depends on. A job is spent by the call that ends its claim.
pub struct Job<S: Subject> {
    pub(crate) claim: u64,
    pub(crate) name: Name,
    pub(crate) text: Arc<Bytes>,
    pub(crate) inputs: Inputs,
    /// The names of the inputs once more, for the board to keep.
    pub(crate) names: MarkedNames,
    pub(crate) answers: Answers<S::Answer>,
}

impl<S: Subject> Model for Job<S> {
    ghost use Rattle.board_meaning.specs.Machine as machine;

    ghost Value = { machine.Job S.Answer };

    ghost use Rattle.std.specs.Prelude.{◌≡◌};
    ghost use Rattle.board_meaning.specs.Claims.{input_names};
    ghost use Rattle.verdict_board.specs.Readings.{read_inputs, IsShort};

    ghost view = { λ j. record { claim = j.claim; name = j.name; text = j.text; inputs = read_inputs j.inputs; answers = j.answers } };

    ghost invariant = { λ j. IsShort j.text × (j.names ≡ input_names (read_inputs j.inputs)) };
}

impl<S: Subject> Job<S> {
    /// The name of the module.
    pub fn name(&self) -> &Name
        ensures { result.now ≡ self.now.name }
    {
        &self.name
    }

    /// The text of the module, which has at most 2^20 bytes.
    pub fn text(&self) -> &[u8]
        ensures text { result.now ≡ self.now.text }
        ensures short { length result.now ≤ text_limit }
    {
        self.text.get().as_slice()
    }

    /// The names that the module reaches, absent ones and itself included, with their stamps, in byte order.
    pub fn inputs(&self) -> &Inputs
        ensures { read_inputs result.now ≡ self.now.inputs }
    {
        &self.inputs
    }

    /// The answers of these names, itself left out; none of an absent name.
    pub fn answers(&self) -> &Answers<S::Answer>
        ensures { result.now ≡ self.now.answers }
    {
        &self.answers
    }

    /// The place of the claim in the history, counted from 0.
    pub fn claim(&self) -> u64
        ensures { result ≡ self.now.claim }
    {
        self.claim
    }
}

//! What is judged: modules whose answers depend on the answers of what they reach.
ghost use Rattle.std.specs.Prelude.{◌≡◌, ◌+◌, ◌≤◌, List, ℕ, Option, Some, length, IfOk, OnErr, OnOk};
ghost use Rattle.name_meaning.specs.Limits.{text_limit};
ghost use Rattle.edit_log_meaning.specs.Log.{Library};
ghost use Rattle.module_graph_meaning.specs.Subject as subjects;
ghost use Rattle.module_graph.specs.Subjects.{IsLawful, IsGiven, IsCyclic, read_answers};

use crate::Answers;
use lf_terms::{Memory, Name, Names, Steps};
use std::alloc::Global;
use std::sync::ledger::Ledger;

/// A subject, with a definition of its answers by a library and a name of it. The definition belongs to the type, so that
/// two values of one type give the same answers.
pub trait Subject: Drop + Send + Sync {
    type Answer: Drop + Send + Sync;

    // What an answer stands for.
    ghost Meaning: { Type 0 };

    ghost meaning: { Self.Answer → Meaning };

    // The dependencies of a module, and the answers that the definition gives.
    ghost subject: { subjects.Subject Meaning };

    /// An equal answer, which shares what it can.
    fn share(answer: &Self::Answer) -> Result<Self::Answer, Memory>
        ensures { IfOk result (λ shared. shared ≡ answer.now) };

    /// The direct dependencies of a module, from its name and text.
    fn deps(&self, alloc: Global, name: &Name, text: &[u8]) -> Result<Names, Memory>
        requires { length text.now ≤ text_limit }
        ensures { IfOk result (λ names. names ≡ subject.dependencies name.now text.now) };

    /// The answer of a grounded module, from its text and the answers of what it reaches. It ticks once where it answers.
    fn judge<L: Ledger>(
        &self,
        alloc: Global,
        name: &Name,
        text: &[u8],
        answers: &Answers<Self::Answer>,
        steps: &mut Steps<L>,
    ) -> Result<Self::Answer, Memory>
        requires short { length text.now ≤ text_limit }
        requires given { (library : Library) × IsGiven subject name.now text.now (read_answers meaning answers.now) library }
        ensures answer { IfOk result (λ answer. (library : Library) → IsGiven subject name.now text.now (read_answers meaning answers.now) library → subject.answer library name.now ≡ Some (meaning answer)) }
        ensures tick { OnOk result (steps.new ≡ steps.old + 1) }
        ensures no_tick { OnErr result (steps.new ≡ steps.old) };

    /// The answer of an ungrounded module, from its text and the present ungrounded names.
    fn cyclic(
        &self,
        alloc: Global,
        name: &Name,
        text: &[u8],
        bad: &Names,
    ) -> Result<Self::Answer, Memory>
        requires short { length text.now ≤ text_limit }
        requires given { (library : Library) × IsCyclic subject name.now text.now bad.now library }
        ensures { IfOk result (λ answer. (library : Library) → IsCyclic subject name.now text.now bad.now library → subject.answer library name.now ≡ Some (meaning answer)) };

    // There is an answer of each present name and of no other, and that of a grounded name depends on the texts of its reach
    // alone.
    ghost lawful: { IsLawful subject };
}

//! Single calls, by any pass, with what is seen of them. A call that finds no memory is as one that was refused.
ghost use Rattle.std.specs.Prelude.{◌≡◌, ◌<◌, ℕ, false, length, nat_eq, IfOk, IfSome, Some};
ghost use Rattle.edit_log_meaning.specs.Log.{Library};
ghost use Rattle.board_meaning.specs.Events.{library_after};
ghost use Rattle.board_meaning.specs.Machine as machine;
ghost use Rattle.module_graph.specs.Subjects.{IsGiven, read_answers};
ghost use Rattle.verdict_board.specs.Readings.{read_job};
ghost use Rattle.board_seats.specs.Seats.{MayEnd};

use edit_log::{Edit, Edited};
use lf_terms::{Arc, Bytes, Memory, Name, Steps};
use module_graph::Subject;
use std::alloc::Global;
use std::marker::Brand;
use std::sync::ledger::{Blank, Ledger};
use verdict_board::{Board, Installed, Job, Told};

/// What is told of a module.
#[derive(Clone, Copy, Debug, PartialEq, Eq)]
pub enum Heard {
    Absent,
    Pending,
    Verdict,
    Nothing,
}

fn put_of(alloc: Global, name: &str, text: &str) -> Option<Edit> {
    let bytes = Bytes::from_vec(text.as_bytes().to_vec(alloc).ok()?);
    let text = Arc::new(alloc, bytes).ok()?;
    match Name::new(alloc, name) {
        Ok(name) => Some(Edit::Put { name, text }),
        Err(_) => {
            drop(text);
            None
        }
    }
}

/// Makes an edit; whether it is made.
fn make<S: Subject>(alloc: Global, board: &mut Board<S>, edit: Edit) -> bool
    ensures stays { (number : ℕ) (job : machine.Job S.Meaning) → MayEnd S.subject board.old number job → MayEnd S.subject board.new number job }
{
    match board.edit(alloc, 0, edit) {
        Ok(answer) => matches!(answer, Edited::Made(_)),
        Err(_) => false,
    }
}

/// Puts a text; whether that is made.
pub fn put<S: Subject>(alloc: Global, board: &mut Board<S>, name: &str, text: &str) -> bool
    ensures stays { (number : ℕ) (job : machine.Job S.Meaning) → MayEnd S.subject board.old number job → MayEnd S.subject board.new number job }
{
    match put_of(alloc, name, text) {
        Some(edit) => make(alloc, board, edit),
        None => false,
    }
}

/// Claims the least ready module for a pass.
pub fn claim<S: Subject>(alloc: Global, board: &mut Board<S>, pass: u32) -> Option<Job<S>>
    ensures may_end { IfSome result (λ job. MayEnd S.subject board.new pass (read_job S.meaning job)) }
    ensures given { IfSome result (λ job. IsGiven S.subject job.name job.text (read_job S.meaning job).answers (library_after board.old)) }
    ensures place { IfSome result (λ job. job.claim ≡ length board.old) }
    ensures stays { (number : ℕ) (job : machine.Job S.Meaning) → MayEnd S.subject board.old number job → MayEnd S.subject board.new number job }
{
    // That the history is legal.
    let _ = board.entries();
    match board.claim(alloc, pass) {
        Ok(job) => job,
        Err(_) => None,
    }
}

/// The answer of a job.
fn judged<S: Subject, L: Ledger>(
    alloc: Global,
    subject: &S,
    job: &Job<S>,
    blank: Blank,
) -> Result<S::Answer, Memory>
    requires name { blank.name ≡ L.name }
    requires parts { blank.parts ≡ L.parts }
    requires some { 0 < blank.parts }
    requires given { (library : Library) × IsGiven S.subject job.now.name job.now.text (read_job S.meaning job.now).answers library }
    ensures { IfOk result (λ answer. (library : Library) → IsGiven S.subject job.now.name job.now.text (read_job S.meaning job.now).answers library → S.subject.answer library job.now.name ≡ Some (S.meaning answer)) }
{
    let mut steps = Steps::<L>::new(blank);
    subject.judge(alloc, job.name(), job.text(), job.answers(), &mut steps)
}

/// Judges a job and brings its verdict. Where there is no memory it is released, and nothing is answered.
pub fn bring<S: Subject>(
    alloc: Global,
    subject: &S,
    board: &mut Board<S>,
    pass: u32,
    job: Job<S>,
) -> Option<Installed>
    requires may_end { MayEnd S.subject board.old pass (read_job S.meaning job) }
    requires given { (library : Library) × IsGiven S.subject job.name job.text (read_job S.meaning job).answers library }
    ensures stays { (number : ℕ) (other : machine.Job S.Meaning) → nat_eq other.claim job.claim ≡ false → MayEnd S.subject board.old number other → MayEnd S.subject board.new number other }
{
    match judged::<S, Brand>(alloc, subject, &job, Blank::new(1)) {
        Ok(answer) => Some(board.install(pass, job, answer)),
        Err(_) => {
            board.release(pass, job);
            None
        }
    }
}

/// What is told of a module.
pub fn told<S: Subject>(alloc: Global, board: &Board<S>, name: &str) -> Heard {
    match Name::new(alloc, name) {
        Ok(name) => told_of(board, &name),
        Err(_) => Heard::Nothing,
    }
}

fn told_of<S: Subject>(board: &Board<S>, name: &Name) -> Heard {
    match board.report(name) {
        Ok(Told::Absent { .. }) => Heard::Absent,
        Ok(Told::Pending { .. }) => Heard::Pending,
        Ok(Told::Verdict { .. }) => Heard::Verdict,
        Err(_) => Heard::Nothing,
    }
}

/// Whether a verdict was installed.
pub fn is_installed(reply: Option<Installed>) -> bool {
    let holds = matches!(&reply, Some(Installed::Installed));
    drop(reply);
    holds
}

/// Whether an input of this name was found to have this newer stamp.
pub fn is_stale(reply: Option<Installed>, input: &str, stamp: u32) -> bool {
    let holds = match &reply {
        Some(Installed::Stale { name, newer }) => name.as_str() == input && *newer == stamp,
        _ => false,
    };
    drop(reply);
    holds
}

/// Whether a job is of this module, and these are its inputs, each with its stamp.
pub fn is_of<S: Subject>(job: &Job<S>, module: &str, inputs: &[(&str, u32)]) -> bool {
    let given = job.inputs();
    let mut same = given.len() == inputs.len();
    for i in 0..inputs.len() {
        same = same && has_input(job, i, inputs[i].0, inputs[i].1);
    }
    same && job.name().as_str() == module
}

fn has_input<S: Subject>(job: &Job<S>, i: usize, name: &str, stamp: u32) -> bool {
    match job.inputs().get(i) {
        Some(input) => input.name.as_str() == name && input.stamp == stamp,
        None => false,
    }
}

/// Releases a job.
pub fn release<S: Subject>(board: &mut Board<S>, pass: u32, job: Job<S>)
    requires may_end { MayEnd S.subject board.old pass (read_job S.meaning job) }
    ensures stays { (number : ℕ) (other : machine.Job S.Meaning) → nat_eq other.claim job.claim ≡ false → MayEnd S.subject board.old number other → MayEnd S.subject board.new number other }
{
    board.release(pass, job);
}

/// Closes the board.
pub fn close<S: Subject>(board: &mut Board<S>)
    ensures stays { (number : ℕ) (job : machine.Job S.Meaning) → MayEnd S.subject board.old number job → MayEnd S.subject board.new number job }
{
    board.close(0);
}

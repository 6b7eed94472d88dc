//! The faces that a job's answers give.
ghost use Rattle.std.specs.Prelude.{◌≡◌, ◌∷◌, ◌++◌, [], None, false, IfOk, OnOk};
ghost use Rattle.std.specs.Option.{option_copied};
ghost use Rattle.name_meaning.specs.Names.{is_among};
ghost use Rattle.name_meaning.specs.Rows.{row_names, row_of};
ghost use Rattle.module_check.specs.PresentRows.{present_row, present_rows};

use lf_terms::{Memory, Name};
use mmt_interface::{Faces, Verdict};
use module_graph::Answers;
use std::alloc::Global;

/// The verdicts of the modules that are present, under their names. They are shared.
pub(crate) fn faces_of(alloc: Global, answers: &Answers<Verdict>) -> Result<Faces, Memory>
    ensures { IfOk result (λ faces. faces ≡ present_rows answers.now) }
{
    let mut faces = Faces::new(alloc);
    faces.reserve(answers.len())?;
    for place in 0..answers.len() {
        if let Some((name, verdict)) = answers.at(place) {
            add_present(alloc, &mut faces, name, verdict)?;
        }
    }
    Ok(faces)
}

/// The same with the verdict on the module itself behind them, which is not among them.
pub fn faces_with(
    alloc: Global,
    answers: &Answers<Verdict>,
    name: &Name,
    verdict: &Verdict,
) -> Result<Faces, Memory>
    requires { row_of (present_rows answers.now) name.now ≡ None }
    ensures { IfOk result (λ faces. faces ≡ present_rows answers.now ++ (name.now, verdict.now) ∷ []) }
{
    let mut faces = faces_of(alloc, answers)?;
    match add_present(alloc, &mut faces, name, Some(verdict)) {
        Ok(()) => Ok(faces),
        Err(fault) => {
            drop(faces);
            Err(fault)
        }
    }
}

/// Adds the verdict of a module that is present.
fn add_present(
    alloc: Global,
    faces: &mut Faces,
    name: &Name,
    verdict: Option<&Verdict>,
) -> Result<(), Memory>
    requires { is_among (row_names faces.old) name.now ≡ false }
    ensures { OnOk result (faces.new ≡ faces.old ++ present_row name.now (option_copied verdict.entry)) }
{
    match verdict {
        Some(verdict) => add(faces, name.copy(alloc)?, verdict.share()?),
        None => Ok(()),
    }
}

/// Adds the verdict of a name that has none.
pub(crate) fn add(faces: &mut Faces, name: Name, verdict: Verdict) -> Result<(), Memory>
    requires { is_among (row_names faces.old) name ≡ false }
    ensures { OnOk result (faces.new ≡ faces.old ++ (name, verdict) ∷ []) }
{
    match faces.push_new(name, verdict) {
        Ok(()) => Ok(()),
        Err(back) => {
            drop(back);
            Err(Memory)
        }
    }
}

//! Modules that a text names, as the faces know them.
ghost use Rattle.verdict_meaning.specs.Modules as modules;
ghost use Rattle.mmt_syntax.specs.Readings.{read_written};
ghost use Rattle.mmt_interface.specs.Readings.{environment_of, read_theory};
ghost use Rattle.link_setting.specs.Answers.{Links};

use crate::fault::refused;
use lf_terms::Path;
use link_setting::LinkFault;
use mmt_interface::{Faces, Interface, Rule, TheoryFace, Verdict};
use mmt_syntax::{Written, first_name};
use std::alloc::Global;

/// The accepted theory that is named here; else it is absent, refused, or a view.
pub(crate) fn module_test<'a>(
    alloc: Global,
    faces: &'a Faces,
    label: &Path,
    written: &Written,
) -> Result<&'a TheoryFace, LinkFault>
    ensures { Links (λ face. read_theory face.now) result (modules.module_test (environment_of faces.now) label.now (read_written written.now)) }
{
    match faces.get(first_name(written)) {
        Some(Verdict::Accepted(interface)) => match interface.get() {
            Interface::Theory { face, .. } => Ok(face),
            Interface::View(_) => Err(refused(alloc, written.span, Rule::WrongModuleKind, label)),
        },
        Some(Verdict::Refused(_)) => {
            Err(refused(alloc, written.span, Rule::DependencyRefused, label))
        }
        None => Err(refused(alloc, written.span, Rule::UnknownModule, label)),
    }
}

//! Translation along the map so far, which has an image for each constant in what is translated.
ghost use Rattle.std.specs.Prelude.{◌≡◌, None, IfOk};
ghost use Rattle.translation_meaning.specs.Translation as meant;
ghost use Rattle.translation_meaning.specs.Unmapped.{unmapped_class, unmapped_value};
ghost use Rattle.term_trees.specs.Readings.{read_class, read_map, read_value};

use lf_terms::{Class, HeadMap, Memory, Value};
use lf_translate::{TranslateFault, translate_class, translate_value};
use std::alloc::Global;

/// The classifier, translated.
pub(crate) fn translated_class(
    alloc: Global,
    along: &HeadMap,
    class: &Class,
) -> Result<Class, Memory>
    requires { unmapped_class (read_map along.now) (read_class class.now) ≡ None }
    ensures { IfOk result (λ translated. read_class translated ≡ meant.translate_class (read_map along.now) (read_class class.now)) }
{
    match translate_class(alloc, along, class) {
        Ok(class) => Ok(class),
        Err(TranslateFault::Memory) => Err(Memory),
        Err(TranslateFault::Unmapped(_)) => unreachable!(),
    }
}

/// The value, translated.
pub(crate) fn translated_value(
    alloc: Global,
    along: &HeadMap,
    value: &Value,
) -> Result<Value, Memory>
    requires { unmapped_value (read_map along.now) (read_value value.now) ≡ None }
    ensures { IfOk result (λ translated. read_value translated ≡ meant.translate_value (read_map along.now) (read_value value.now)) }
{
    match translate_value(alloc, along, value) {
        Ok(value) => Ok(value),
        Err(TranslateFault::Memory) => Err(Memory),
        Err(TranslateFault::Unmapped(_)) => unreachable!(),
    }
}

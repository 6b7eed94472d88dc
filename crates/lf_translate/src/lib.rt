//! Translation along maps of constants (Rabe and Kohlhase 2013, section 4), as `translation_meaning` defines it, over
//! terms in memory. It answers for every map, typed or not. Also long forms of values, as `eta_meaning` defines them.
#![tactic(auto)]

mod families;
mod fault;
mod images;
mod long_values;
mod maps;
mod objects;
mod values;

pub use families::{family_in_place, translate_fam, translate_kind};
pub use fault::TranslateFault;
pub use images::object_in_place;
pub use long_values::long_value;
pub use maps::{compose, differ};
pub use objects::translate_obj;
pub use values::{family_value, object_value, translate_class, translate_value};

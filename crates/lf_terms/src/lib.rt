//! Terms of the logical framework, and the small types that all crates share: the tables of declarations and of images
//! are here, names and lists in `base_types`, terms in `term_trees`, and all of them can be had from this crate.
#![tactic(auto)]

mod flat_sig;
mod head_map;
mod map_part;
mod named;
mod path_names;

pub use base_types::{
    Arc, Bytes, Memory, Name, NameFault, Names, Path, QName, Sequence, Span, Steps, TermPath, Texts,
};
pub use flat_sig::{FlatSig, PushFault};
pub use head_map::{HeadMap, MapFault};
pub use map_part::MapPart;
pub use term_trees::{
    Class, Ctx, DEEPEST, Fam, FlatDecl, Head, Image, Kind, Obj, Simple, Spine, Value, erase,
    same_class, same_fam, same_kind, same_obj, same_value, shift_fam, shift_kind, shift_obj,
    spine_of_all, vec_of_all, with_all, with_head, with_next,
};

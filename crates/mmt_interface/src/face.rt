//! What accepted modules show: theories, structures and views as they are after flattening (Rabe and Kohlhase 2013,
//! section 3).

use lf_terms::{FlatSig, HeadMap, Name, Names, Sequence};

/// A structure of a theory: the theory that it is from, and its map, from the flat signature of that theory to that of
/// the declaring theory.
#[derive(Debug, Drop)]
pub struct StructFace {
    pub name: Name,
    pub domain: Name,
    pub map: HeadMap,
}

/// Structures, in order.
pub type Structs = Sequence<StructFace>;

/// A theory: its declared and induced constants, the inclusion closure without the theory itself, and its structures.
#[derive(Debug, Drop)]
pub struct TheoryFace {
    pub name: Name,
    pub own: FlatSig,
    pub includes: Names,
    pub structs: Structs,
}

/// A view: its ends, and its map, from the flat signature of the domain to that of the codomain.
#[derive(Debug, Drop)]
pub struct ViewFace {
    pub name: Name,
    pub domain: Name,
    pub codomain: Name,
    pub map: HeadMap,
}

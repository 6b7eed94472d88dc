//! Names: identifiers. The bytes of a short one stand in the name itself, and those of a longer one are shared, so that a
//! copy costs the same for a name of any length.
ghost use Rattle.std.specs.Prelude.{◌≡◌, ◌↔◌, ◌<◌, ◌∷◌, [], IfOk, IfSome, OnOk, IsErrOf, IsNone, IsTrue, length, not, nat_eq, refl, Some};
ghost use Rattle.std.specs.Ordering.{nat_cmp};
ghost use Rattle.std.specs.Cmp.{partial_equiv_from_equiv};
ghost use Rattle.std.specs.Cmp.Rules.{hashing};
ghost use Rattle.std.specs.Cmp.Lexicographic.{pointwise, slice_cmp, nat_list_eq_equiv, nat_list_cmp_total, texts_ties, texts_po};
ghost use Rattle.identifiers.specs.Below.Identifiers.{is_identifier};
ghost use Rattle.base_types.specs.declared.name.NameFault.TheVariants.{NotAName, Memory as WantOfMemory};

use crate::Memory;
use crate::short::Short;
use identifiers::is_identifier;
use std::alloc::{AllocError, Global};
use std::cmp::Ordering;
use std::hash::{Hash, Hasher};
use std::marker::Model;
use std::sync::ArcStr;

/// Why a text gave no name.
#[derive(Clone, Copy, Debug, PartialEq, Eq)]
pub enum NameFault {
    /// The text is no identifier, or it is a reserved word.
    NotAName,
    /// Want of memory.
    Memory,
}

impl From<AllocError> for NameFault {
    ghost from_gives = { λ _ e. e ≡ WantOfMemory };

    fn from(_: AllocError) -> Self {
        NameFault::Memory
    }
}

/// A name, seen as its bytes, which are an identifier.
#[derive(Debug, Drop)]
pub struct Name {
    text: Text,
}

#[derive(Debug, Drop)]
enum Text {
    Short(Short),
    Shared(ArcStr),
}

impl Model for Name {
    ghost use Rattle.std.specs.Prelude.{List, ℕ, IsTrue};
    ghost use Rattle.identifiers.specs.Below.Identifiers.{is_identifier};
    ghost use Rattle.base_types.specs.SharedText.{text_bytes};

    ghost Value = { List ℕ };

    ghost view = { λ n. text_bytes n.text };

    ghost invariant = { λ n. IsTrue (is_identifier (text_bytes n.text)) };
}

impl Name {
    /// The name with the bytes of a text. `NotAName` exactly where they are no identifier; `Memory` is want of memory.
    pub fn new(alloc: Global, text: &str) -> Result<Name, NameFault>
        ensures name { IfOk result (λ name. name ≡ text.now) }
        ensures identifier { OnOk result (IsTrue (is_identifier text.now)) }
        ensures not_a_name { IsErrOf result NotAName ↔ IsTrue (not (is_identifier text.now)) }
    {
        if !is_identifier(text.as_bytes()) {
            return Err(NameFault::NotAName);
        }
        let text = match Short::new(text) {
            Some(short) => Text::Short(short),
            None => Text::Shared(ArcStr::from_str(alloc, text)?),
        };
        Ok(Name { text })
    }

    /// The name with the bytes of an identifier that is short enough to stand in the name itself, which takes no memory.
    /// None exactly where it has more than 14 bytes.
    pub fn short(text: &str) -> Option<Name>
        requires { IsTrue (is_identifier text.now) }
        ensures name { IfSome result (λ name. name ≡ text.now) }
        ensures none { IsNone result ↔ (14 < length text.now) }
    {
        match Short::new(text) {
            Some(short) => Some(Name {
                text: Text::Short(short),
            }),
            None => None,
        }
    }

    /// The text of the name.
    pub fn as_str(&self) -> &str
        ensures text { result.now ≡ self.now }
        ensures identifier { IsTrue (is_identifier self.now) }
    {
        match &self.text {
            Text::Short(text) => text.as_str(),
            Text::Shared(text) => text.as_str(),
        }
    }

    /// The bytes of the name. They need no test of UTF-8, as the text of a short name does.
    fn as_bytes(&self) -> &[u8]
        ensures { result.now ≡ self.now }
    {
        match &self.text {
            Text::Short(text) => text.as_bytes(),
            Text::Shared(text) => text.as_str().as_bytes(),
        }
    }

    /// An equal name. It takes no memory.
    pub fn copy(&self, _alloc: Global) -> Result<Name, Memory>
        ensures { IfOk result (λ name. name ≡ self.now) }
    {
        let text = match &self.text {
            Text::Short(text) => Text::Short(text.copy()),
            Text::Shared(text) => Text::Shared(text.clone()?),
        };
        Ok(Name { text })
    }
}

impl PartialEq for Name {
    ghost eq = { pointwise nat_eq };

    ghost laws = { partial_equiv_from_equiv nat_list_eq_equiv };

    fn eq(&self, other: &Self) -> bool {
        match (&self.text, &other.text) {
            (Text::Short(text), Text::Short(second)) => text.is_same(second),
            _ => self.as_bytes() == other.as_bytes(),
        }
    }
}

impl Eq for Name {
    ghost laws = { nat_list_eq_equiv };
}

impl PartialOrd for Name {
    ghost partial_cmp = { λ x y. Some (slice_cmp nat_cmp x y) };

    ghost laws = { texts_po };

    fn partial_cmp(&self, other: &Self) -> Option<Ordering> {
        Some(self.cmp(other))
    }
}

impl Ord for Name {
    ghost cmp = { slice_cmp nat_cmp };

    ghost total = { nat_list_cmp_total };

    ghost matches_partial_cmp = { λ x y. refl };

    ghost matches_eq = { texts_ties };

    fn cmp(&self, other: &Self) -> Ordering {
        self.as_bytes().cmp(other.as_bytes())
    }
}

impl Hash for Name {
    ghost use Rattle.std.proofs.Common.{rules};

    // The bytes alone, which need no test of UTF-8, and no mark of their end, since a hasher tells writes of one length from those of
    // another.
    ghost hash_input = { λ name. name ∷ [] };

    ghost respects_eq = { Prim.search (hashing, rules) };

    fn hash<H: Hasher>(&self, state: &mut H) {
        state.write(self.as_bytes());
    }
}

//! Texts of a few bytes, which stand in the value itself.
ghost use Rattle.std.specs.Prelude.{◌≡◌, ◌↔◌, ◌<◌, drop, length, nat_eq, take, IfSome, IsNone};
ghost use Rattle.std.specs.Cmp.Lexicographic.{pointwise};
ghost use Rattle.std.specs.Int.{from_be_bytes, w64};

use std::marker::Model;

/// A text of at most 14 bytes, seen as its bytes. Zeros stand behind them.
#[derive(Debug, Drop)]
pub(crate) struct Short {
    bytes: [u8; 14],
    len: u8,
}

impl Model for Short {
    ghost use Rattle.std.specs.Prelude.{◌≡◌, ◌≤◌, ◌-◌, List, ℕ, IsTrue, drop, replicate, take};
    ghost use Rattle.std.specs.Str.{is_utf8};

    ghost Value = { List ℕ };

    ghost view = { λ s. take s.len s.bytes };

    ghost invariant = { λ s. (s.len ≤ 14) × IsTrue (is_utf8 (take s.len s.bytes)) × (drop s.len s.bytes ≡ replicate (14 - s.len) 0) };
}

impl Short {
    /// The same text. None where it has more than 14 bytes.
    pub(crate) fn new(text: &str) -> Option<Short>
        ensures some { IfSome result (λ short. short ≡ text.now) }
        ensures none { IsNone result ↔ (14 < length text.now) }
    {
        let len = text.len();
        if len > 14 {
            return None;
        }
        let mut bytes = [0; 14];
        bytes[..len].copy_from_slice(text.as_bytes());
        Some(Short {
            bytes,
            len: len as u8,
        })
    }

    /// An equal text.
    #[inline]
    pub(crate) fn copy(&self) -> Short
        ensures { result ≡ self.now }
    {
        Short {
            bytes: self.bytes,
            len: self.len,
        }
    }

    /// The bytes.
    pub(crate) fn as_bytes(&self) -> &[u8]
        ensures { result.now ≡ self.now }
    {
        &self.bytes[..self.len as usize]
    }

    /// The text.
    pub(crate) fn as_str(&self) -> &str
        ensures { result.now ≡ self.now }
    {
        match str::from_utf8(&self.bytes[..self.len as usize]) {
            Ok(text) => text,
            Err(_) => unreachable!(),
        }
    }

    /// Whether the texts are equal.
    #[inline]
    pub(crate) fn is_same(&self, other: &Short) -> bool
        ensures { result ≡ pointwise nat_eq self.now other.now }
    {
        self.len == other.len && are_same(&self.bytes, &other.bytes)
    }
}

/// Whether the bytes are equal. They are compared as two words, which share two bytes: that is cheaper than one by one.
#[inline]
fn are_same(bytes: &[u8; 14], other: &[u8; 14]) -> bool
    ensures { result ≡ pointwise nat_eq bytes.now other.now }
{
    first_word(bytes) == first_word(other) && last_word(bytes) == last_word(other)
}

/// The first eight bytes as a word.
#[inline]
fn first_word(bytes: &[u8; 14]) -> u64
    ensures { result ≡ from_be_bytes w64 (take 8 bytes.now) }
{
    u64::from_be_bytes([
        bytes[0], bytes[1], bytes[2], bytes[3], bytes[4], bytes[5], bytes[6], bytes[7],
    ])
}

/// The last eight bytes as a word.
#[inline]
fn last_word(bytes: &[u8; 14]) -> u64
    ensures { result ≡ from_be_bytes w64 (drop 6 bytes.now) }
{
    u64::from_be_bytes([
        bytes[6], bytes[7], bytes[8], bytes[9], bytes[10], bytes[11], bytes[12], bytes[13],
    ])
}

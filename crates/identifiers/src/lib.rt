//! The tests of the bytes of a text: white space, special characters, identifiers.
#![tactic(auto)]

ghost use Rattle.std.specs.Prelude.{◌≡◌};
ghost use Rattle.name_meaning.specs.Characters as characters;

mod identifier;

pub use identifier::is_identifier;

/// Whether the byte is white space: a tab, a line feed, a vertical tab, a form feed, a carriage return or a space.
pub fn is_white_space(byte: u8) -> bool
    ensures { result ≡ characters.is_white_space byte }
{
    (byte >= 9 && byte <= 13) || byte == b' '
}

/// Whether the byte is a special character.
pub fn is_special(byte: u8) -> bool
    ensures { result ≡ characters.is_special byte }
{
    matches!(
        byte,
        b':' | b'.' | b'(' | b')' | b'[' | b']' | b'{' | b'}' | b'%' | b'"'
    )
}

/// Whether the byte can stand in an identifier. Most that can are small letters, for which one test is enough.
#[inline(always)]
pub fn is_identifier_byte(byte: u8) -> bool
    ensures { result ≡ characters.is_identifier_byte byte }
{
    if byte > b']' && byte < b'{' {
        return true;
    }
    !(is_white_space(byte) || is_special(byte))
}

//! Which bytes are identifiers.
ghost use Rattle.std.specs.Prelude.{◌≡◌};
ghost use Rattle.std.specs.List.{list_all};
ghost use Rattle.name_meaning.specs.Characters as characters;
ghost use Rattle.name_meaning.specs.Identifiers as identifiers;

use crate::is_identifier_byte;

/// Whether bytes are an identifier, which no reserved word is. An identifier of a text in UTF-8 is a name.
pub fn is_identifier(bytes: &[u8]) -> bool
    ensures { result ≡ identifiers.is_identifier bytes.now }
{
    is_run(bytes) && !is_reserved(bytes)
}

fn is_run(bytes: &[u8]) -> bool
    ensures { result ≡ identifiers.is_run bytes.now }
{
    !bytes.is_empty() && are_identifier_bytes(bytes)
}

fn are_identifier_bytes(bytes: &[u8]) -> bool
    ensures { result ≡ list_all characters.is_identifier_byte bytes.now }
{
    bytes.iter().all(|byte| is_identifier_byte(*byte))
}

fn is_reserved(bytes: &[u8]) -> bool
    ensures { result ≡ identifiers.is_reserved bytes.now }
{
    matches!(bytes, b"type" | b"->" | b"<-" | b"=" | b"_")
}

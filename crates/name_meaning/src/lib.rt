//! The classes of the bytes of a text, which texts are identifiers, and names in byte order: definitions, in `specs/`.
#![tactic(auto)]

//! What a text spells: its tokens, its trees, and where reading stops. It holds definitions alone, in `specs/`.
#![tactic(auto)]

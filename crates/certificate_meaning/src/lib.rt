//! What a certificate of a flat signature is, a derivation that it is well typed written line by line: definitions, in `specs/`, one topic a file.
#![tactic(auto)]

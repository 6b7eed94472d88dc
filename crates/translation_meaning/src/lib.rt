//! What translation along a map of constants means, and which maps are typed: definitions, in `specs/`, one topic a file.
#![tactic(auto)]

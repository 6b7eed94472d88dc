//! What whole scripts, checked folders and the generator print, over any judging: definitions, in `specs/`, one topic a file.
#![tactic(auto)]

//! How bytes are cut into lines, the lines that every command prints alike, and how terms, tables, verdicts, edits, files and the
//! generator's counts are printed: definitions, in `specs/`, one topic a file.
#![tactic(auto)]

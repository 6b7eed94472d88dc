//! Boards of modules, call by call, through several passes; libraries that are judged from their texts alone, and their flat
//! signatures; and counted steps.
#![tactic(auto)]

#[cfg(test)]
mod board_tests;
#[cfg(test)]
mod calls;
#[cfg(test)]
mod claims;
#[cfg(test)]
mod edits;
#[cfg(test)]
mod flats;
#[cfg(test)]
mod scratch;
#[cfg(test)]
mod steps;

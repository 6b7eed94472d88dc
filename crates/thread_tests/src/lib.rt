//! Tests of the turn lock: threads that take turns with one value, passes that split, join and end.
#![tactic(auto)]

#[cfg(test)]
mod marks;
#[cfg(test)]
mod runs;
#[cfg(test)]
mod tests;

//! Tests of a board that threads share: workers judge what the front puts, and what they leave. With it, the small subject whose
//! board that is, and the objects in memory that stand for the outside.
#![tactic(auto)]

#[cfg(test)]
mod answers;
#[cfg(test)]
mod counts;
#[cfg(test)]
mod crews;
#[cfg(test)]
mod outside;
#[cfg(test)]
mod polls;
#[cfg(test)]
mod runs;
#[cfg(test)]
mod sizes;
#[cfg(test)]
mod tests;

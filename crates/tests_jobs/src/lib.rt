//! Jobs over files in memory, as a table in a test. The answers were worked out by hand.
#![tactic(auto)]

#[cfg(test)]
mod jobs_in_memory;
#[cfg(test)]
mod shelf;

//! Worked rows of types, as tables in tests. Their answers were worked out by hand.
#![tactic(auto)]

#[cfg(test)]
mod examples;
#[cfg(test)]
mod sites;
#[cfg(test)]
mod types;

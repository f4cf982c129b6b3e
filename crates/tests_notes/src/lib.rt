//! Worked rows of notes, and of times and addresses. Their answers were worked out by hand.
#![tactic(auto)]

#[cfg(test)]
mod examples;
#[cfg(test)]
mod forms;
#[cfg(test)]
mod names;

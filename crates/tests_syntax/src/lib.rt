//! Worked rows of heads, of tokens and of the grammar, as tables in tests. Their answers were worked out by hand.
#![tactic(auto)]

#[cfg(test)]
mod examples;
#[cfg(test)]
mod grammar;
#[cfg(test)]
mod heads;
#[cfg(test)]
mod tokens;

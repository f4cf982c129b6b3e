//! Worked rows of files and the formats that fit them. The answers were worked out by hand.
#![tactic(auto)]

#[cfg(test)]
mod fits;
#[cfg(test)]
mod pickles;
#[cfg(test)]
mod texts;

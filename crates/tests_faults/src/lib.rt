//! Where faults arise, as a table in a test. The paths were worked out by hand.
#![tactic(auto)]

#[cfg(test)]
mod faults;

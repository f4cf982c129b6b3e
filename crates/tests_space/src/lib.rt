//! Spaces, their pages and the numbers in them. Values were worked out by hand or computed elsewhere.
#![tactic(auto)]

#[cfg(test)]
mod counted;
#[cfg(test)]
mod examples;
#[cfg(test)]
mod files;
#[cfg(test)]
mod numbers;
#[cfg(test)]
mod pages;
#[cfg(test)]
mod reading;
#[cfg(test)]
mod streams;
#[cfg(test)]
mod windows;

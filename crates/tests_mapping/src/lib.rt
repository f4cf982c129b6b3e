//! Worked rows of mappings, as tables in tests. Their values were worked out by hand.
#![tactic(auto)]

#[cfg(test)]
mod csv_cells;
#[cfg(test)]
mod devices;
#[cfg(test)]
mod displays;
#[cfg(test)]
mod examples;
#[cfg(test)]
mod mappings;
#[cfg(test)]
mod reads;
#[cfg(test)]
mod stores;
#[cfg(test)]
mod streams;
#[cfg(test)]
mod tables;
#[cfg(test)]
mod values;

//! Worked rows of runs, dumps and arguments, as tables in tests. Their answers were worked out by hand.
#![tactic(auto)]

#[cfg(test)]
mod answers;
#[cfg(test)]
mod bounds;
#[cfg(test)]
mod checks;
#[cfg(test)]
mod dumps;
#[cfg(test)]
mod examples;
#[cfg(test)]
#[cfg(test)]
mod modes;
#[cfg(test)]
mod offset_words;
#[cfg(test)]
mod part_bytes;
#[cfg(test)]
mod pickles;
#[cfg(test)]
mod record_lists;
#[cfg(test)]
mod twice;
#[cfg(test)]
mod value_searches;
#[cfg(test)]
mod words;

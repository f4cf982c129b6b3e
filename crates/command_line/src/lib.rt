//! The arguments, and the job that they request.
#![tactic(auto)]

pub mod answer_form;
pub mod ask;
pub mod color;
pub mod fault_form;
pub mod identification;
pub mod limit;
pub mod numerals;
pub mod offset_word;
pub mod path;
pub mod pattern;
pub mod request;
pub mod selection;
pub mod start;
pub mod subject;
pub mod terms;
pub mod words;

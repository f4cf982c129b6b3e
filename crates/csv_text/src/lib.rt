//! The cells of a table as CSV (RFC 4180), over the printer of `value_text`.
//!
//! A record is its cells with [`record::put_separator`] before each, and [`record::put_record_end`]. A cell is a part of a
//! value ([`cell::put_cell`]) or a name ([`cell::put_name`]).
#![tactic(auto)]

pub mod cell;
mod character;
mod chars;
mod json;
mod json_string;
pub mod laws;
pub mod record;
mod source;
mod text;

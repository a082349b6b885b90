//! The text of dumps: the line of each, and below it the addresses, fields and records of the tables that are read.
//!
//! Nothing here takes memory. Each printing function's contract gives the text that it prints.
#![tactic(auto)]

mod content;
mod dumps;
mod fields;
mod heads;
mod labels;
mod records;

pub use dumps::print_dumps;
pub use labels::{put_decimal, put_quoted};

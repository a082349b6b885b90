//! ASL-like text of AML, exactly as the definitions of `specs/` say: names, terms, bodies and definition blocks.
//!
//! Nothing here takes memory, but for `term_text`, `told_text` and `TableTexts`. Each printing function's contract
//! gives the text that it prints.
#![tactic(auto)]

mod blocks;
mod bodies;
mod bounded;
mod inline;
mod lines;
mod tables;
mod texts;
mod told;
mod words;
mod woven;
mod writing;

pub use blocks::{Block, print_block};
pub use bodies::{Bodies, Body, BodyText};
pub use lines::print_indent;
pub use tables::{Place, TableText, TableTexts};
pub use told::pieces_are_lines;
pub use words::print_segments;
pub use woven::print_told_block;
pub use writing::{term_text, told_text};

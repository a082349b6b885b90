//! The text of a listing: the dumps, the namespace and the definition blocks of a set of tables, exactly as the
//! definitions of `specs/` say.
//!
//! Nothing here takes memory, but for `body_levels`, `take_rows` and `piece_text`. Each printing function's contract
//! gives the text that it prints.
#![tactic(auto)]

mod levels;
mod listing;
mod pieces;
mod rows;
mod tables;
mod told;
mod writing;

pub use asl_text::{
    Block, Bodies, Body, BodyText, TableText, TableTexts, print_block, term_text, told_text,
};
pub use levels::body_levels;
pub use listing::{Listing, Tables};
pub use pieces::{count_pieces, piece_text, take_rows};
pub use rows::print_rows;
pub use tables::{Blocks, dump_of};
pub use writing::{write_listing, write_printed};

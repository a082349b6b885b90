//! The language AML: package lengths, the table of opcodes, trees and their bytes.
//!
//! It follows chapter 20 of the ACPI Specification 6.5. Names and paths come from `aml_names`.
#![tactic(auto)]

mod accessors;
mod bytes;
mod encode;
mod encoder;
mod packages;
mod pieces;
mod rows;
mod table;
mod tree;

pub use accessors::{last_byte, last_name};
pub use aml_names::{
    Arity, CodeFault, Locals, Name, NameForm, Names, NoMemory, Path, Seg, Segs, byte_of, offset_of,
    place, read_name,
};
pub use bytes::Bytes;
pub use encode::{encode_terms, slice};
pub use encoder::told_same;
pub use packages::{PkgWidth, length_of, little_of, read_pkg, span_of};
pub use pieces::{Both, Piece, Sink, TableSink, Telling};
pub use rows::{Group, Object, OpRow, PartKind, Place, Position, Role, TailKind, takes};
pub use table::{listed_row, row};
pub use tree::{Field, Link, Node, Part, Tail};

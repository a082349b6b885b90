//! Text written piece by piece: a buffered writer that remembers its first fault, and the text of numbers and of
//! quoted bytes.
//!
//! Nothing here takes memory. Each printing function's contract gives the text that it prints.
#![tactic(auto)]

mod buffer;
mod numbers;
mod output;
mod printing;

pub use numbers::{print_decimal, print_hex2, print_hex4, print_hex8, print_hex16, print_quoted};
pub use output::{Out, WriteFault};
pub use printing::{Print, write_text, write_text_in};

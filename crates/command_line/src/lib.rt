//! The command line, and the file of argument counts that it may name.
#![tactic(auto)]

mod externals;
mod line;

pub use externals::{FileFault, read_externals};
pub use line::{CommandLine, Stop, read};

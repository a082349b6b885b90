//! A whole run: from the dumps of a set to its listing and the text of it.
#![tactic(auto)]

mod alone;
mod beside;
mod bodies;
mod check_lines;
mod checking;
mod crew;
mod disassembling;
mod faults;
mod lines;
mod options;
mod refusal;
mod rows;
mod running;
mod tables;
mod texts;
mod told;
mod trials;

pub use acpi_folder::{MapFault, parse_map};
pub use alone::run_alone;
pub use check_lines::write_checks;
pub use checking::{Checked, check};
pub use disassembling::{disassemble, load_set};
pub use faults::RunFault;
pub use lines::read_lines;
pub use options::Options;
pub use refusal::Refusal;
pub use running::{print_fault, run};

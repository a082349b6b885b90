//! What tables declare, and what stands in each run of their code outside methods: the law that ties the two, about
//! definitions alone. No program needs this crate.
//!
//! It follows the ACPI Specification 6.5, sections 5.3 (the namespace), 20.2.1 and 20.2.5 (the terms).
#![tactic(auto)]

mod runs;

pub use runs::{every_run_of_tables_agrees, runs_are_selections, worked_runs};

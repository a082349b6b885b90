//! A loaded set of tables: the AML and the terms of each, their namespace, and their methods.
//!
//! It follows the ACPI Specification 6.5, sections 5.2.11 (definition blocks) and 5.3 (the namespace).
#![tactic(auto)]

mod loaded;
mod methods;
mod tables;

pub use loaded::{Loaded, rebuild, span_of};
pub use methods::Method;
pub use tables::{Table, TableSet};

//! What a program over the crates wants of terms: names for opcodes, the numbers of constants, the units of field
//! lists.
//!
//! It follows the ACPI Specification 6.5, section 20.2.
#![tactic(auto)]

mod fields;
mod laws;
mod numbers;
pub mod opcodes;
mod units;

pub use fields::{FieldBase, FieldUnit, base_of, units_of};
pub use laws::opcodes_are_named;
pub use numbers::number_of;
pub use units::{UnitPlace, unit_at};

//! What a namespace is: what tables declare, where a name leads, and how many arguments it takes.
//!
//! It follows the ACPI Specification 6.5, section 5.3 (the namespace) and section 5.3.1 (the predefined names).
#![tactic(auto)]

mod declarations;
mod ids;
mod kinds;
mod laws;
mod predefined;
mod rows;
mod runs;
mod tallies;

pub use declarations::Declarations;
pub use ids::PathId;
pub use kinds::Kind;
pub use laws::rows_are_declared;
pub use predefined::predefined_kind;
pub use rows::SpaceRow;
pub use runs::{every_run_agrees, every_run_leads_there, runs_differ, stays_as_it_is, sure_stays};
pub use tallies::{Counts, Tally, own_counts};

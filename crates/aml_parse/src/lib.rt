//! Reading AML: the bytes of a table and of a method's body as trees.
//!
//! What it means that bytes read as a tree is said by `ReadsModule` and `ReadsBody` in the specs of `aml_code`.
#![tactic(auto)]

mod body;
mod builder;
mod flat;
mod module;
mod packages;
mod parser;
mod plain;
mod positions;
mod room;
mod running;
mod short;
mod step;
mod tell;
mod terms;
mod told;
mod units;

pub use body::{body_terms, parse_body};
pub use module::{parse_module, tell_module};
pub use positions::next_position;
pub use running::{reads_forward, reads_one_way, spells_table};
pub use step::{Behind, StepAt, read_step, tell_step};
pub use terms::TableTerms;
pub use told::{tell_body, tell_terms};

//! The namespace of some tables, kept as an index: what they declare, where a name leads there, and how many arguments
//! it takes. What a namespace is `aml_namespace` says.
#![tactic(auto)]

mod below;
mod bodies;
mod counting;
mod edges;
mod faults;
mod growing;
mod listing;
mod nodes;
mod parents;
mod rows;
mod scopes;
mod searching;
mod seen;
mod space_paths;
mod spaces;
mod walking;
mod ways;

pub use aml_namespace::{
    Kind, PathId, SpaceRow, every_run_agrees, every_run_leads_there, rows_are_declared,
    runs_differ, stays_as_it_is, sure_stays,
};
pub use below::Below;
pub use bodies::{BodyNames, BodyScope};
pub use faults::SpaceFault;
pub use listing::Rows;
pub use rows::Row;
pub use space_paths::SpacePath;
pub use spaces::Space;

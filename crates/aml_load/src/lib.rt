//! The load pass: the namespace of all tables, and the bodies of their methods.
//!
//! It follows the ACPI Specification 6.5, sections 5.2.11 (definition blocks), 5.3 (the namespace) and 20.2.5 (the
//! terms).
#![tactic(auto)]

mod bodies;
mod ears;
mod faults;
mod groups;
mod heads;
mod hearer;
mod hearing;
mod laws;
mod loading;
mod opening;
mod roles;
mod run;
mod runner;
mod sites;
mod standing;
mod standing_laws;
mod used;
mod walking;

pub use bodies::{read_body, read_span, tell_span};
pub use faults::LoadFault;
pub use laws::{loads_forward, loads_in_text_order, loads_one_way, loads_strictly};
pub use loading::{LoadRules, load, load_any_run, load_names, load_tables};
pub use standing::{StandingTerm, StandingTerms, standing_terms};
pub use standing_laws::terms_stand_as_declared;

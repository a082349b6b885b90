//! Names of the ACPI namespace: segments, names as they are written, paths, and where a name leads.
//!
//! The base of the AML crates. It follows the ACPI Specification 6.5, section 5.3 (the namespace) and
//! section 20.2.2 (the spelling of a name).
#![tactic(auto)]

mod arities;
mod branches;
mod counts;
mod faults;
mod locals;
mod names;
mod paths;
mod placing;
mod reading;
mod segments;
mod stepping;

pub use arities::{Arity, Names};
pub use branches::Branches;
pub use counts::ArgumentCount;
pub use faults::{CodeFault, NoMemory};
pub use locals::Locals;
pub use names::{Name, NameForm};
pub use paths::Path;
pub use placing::{Stand, front_of, place};
pub use reading::{is_name_lead, name_of, read_name, segment_of};
pub use segments::{Seg, Segs};
pub use stepping::{byte_of, offset_of};

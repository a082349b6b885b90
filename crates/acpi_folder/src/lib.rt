//! A folder of dumps: its files, and the addresses that its map gives them.
#![tactic(auto)]

mod disk;
mod externals;
mod folder;
mod gathering;
mod lines;
mod map;
mod quoted;

pub use disk::DiskFolder;
pub use externals::{ExternalsFault, parse_externals};
pub use folder::{Folder, FolderFault};
pub use gathering::{GatherFault, gather};
pub use map::{MapFault, parse_map};
pub use quoted::Quoted;

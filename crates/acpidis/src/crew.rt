//! Who reads the bodies of a set.
use std::alloc::Global;

/// So many workers, each on a thread of its own, with what starts the threads, their memory and their gate.
#[derive(Drop)]
pub(crate) struct Crew<'a, R, G> {
    pub(crate) rt: &'a R,
    pub(crate) alloc: Global,
    /// How many there are, 1 to 64.
    pub(crate) workers: u32,
    pub(crate) gate: &'a G,
}

//! A gate that workers pass before each piece of work.

/// Called by each worker before each piece of work. A gate changes no answer; it lets a test hold a worker, or watch
/// which one does what.
pub trait Gate {
    fn enter(&self, worker: u32, number: u32);
}

/// The gate that does nothing.
#[derive(Clone, Copy)]
pub struct FreeGate;

impl Gate for FreeGate {
    fn enter(&self, _worker: u32, _number: u32) {}
}

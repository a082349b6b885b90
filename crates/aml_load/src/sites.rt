//! Where terms stand.
use aml_space::PathId;

/// Where a term stands.
#[derive(Clone, Copy)]
pub struct Site {
    /// The table, by its place in load order from 0 on.
    pub table: usize,
    /// The scope, by its number in the space of the tables.
    pub scope: PathId,
    /// Whether the code outside methods may run.
    pub any_run: bool,
    /// Whether what the term declares is declared in every run of it. Where it may not run, everything is.
    pub sure: bool,
}

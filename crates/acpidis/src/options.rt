//! How a set of tables is read.
use aml_names::{ArgumentCount, Path};

/// What is taken that is refused else, and what the user says of the set.
#[derive(Drop)]
pub struct Options {
    /// Whether a table with any checksum is taken.
    pub any_sum: bool,
    /// Whether the code of tables outside methods may run, so that they are read as whatever a run of it would declare.
    pub any_run: bool,
    /// Whether a name that leads nowhere, and has no given count, is taken to have no arguments in a body, and with
    /// `any_run` elsewhere too. Inside a declaration outside bodies it has none in any case.
    pub unknown_zero: bool,
    /// Argument counts, 0 to 7, by path. They count for a name that leads nowhere, and, with `any_run`, for one whose
    /// counts differ: of the paths that it may mean the first with such a count, and the greatest there.
    pub externals: Vec<(Path, ArgumentCount)>,
}

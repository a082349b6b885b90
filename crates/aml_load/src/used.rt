//! The names outside methods whose numbers of arguments are compared.
use aml_names::Name;

/// A name that stands as a TermArg outside the methods, or as a term there.
#[derive(Drop)]
pub struct Asked {
    /// The table, by its place in load order from 0 on.
    pub table: usize,
    pub name: Name,
    /// With how many arguments it was read.
    pub args: usize,
    /// Whether the term around it is a declaration.
    pub declaring: bool,
}

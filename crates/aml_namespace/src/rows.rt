//! A declared path.
use crate::kinds::Kind;
use aml_names::Path;

/// A declared path, the kind of its first declaration, whether a declaration is sure, and how many there are.
#[derive(Drop)]
pub struct SpaceRow {
    pub path: Path,
    pub kind: Kind<Path>,
    pub sure: bool,
    pub times: usize,
}

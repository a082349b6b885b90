//! The methods that tables declare.
use aml_space::PathId;

/// A method that a table declares (ACPI 6.5, 19.6.85).
#[derive(Clone, Copy)]
pub struct Method {
    /// Its path, by the number in the space of its set.
    pub path: PathId,
    /// Bits 0 to 2: the number of arguments. Bit 3: whether it is serialized. Bits 4 to 7: the sync level.
    pub flags: u8,
    /// Where its body begins in the table's AML, in bytes.
    pub start: u32,
    /// The length of its body, in bytes.
    pub len: u32,
    /// The table, by its place in load order from 0 on.
    pub table: usize,
}

// A set may have a million methods.
const _: () = prove!(size_of::<Method>() == 24);

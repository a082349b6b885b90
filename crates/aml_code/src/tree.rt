//! The tree of AML terms (ACPI 6.5, 20.2).
//!
//! One type holds every term. What a node is made of is said by the row of its opcode (`row`), and where it may
//! stand by its position (`Position`).

use crate::bytes::Bytes;
use crate::packages::PkgWidth;
use aml_names::{Name, Seg};

/// A term, an argument, a target, an element of a package.
#[cycle(tree)]
#[derive(Drop)]
pub enum Node {
    /// The byte 00 where a target is wanted: no target (ACPI 6.5, 20.2.5: NullName as Target).
    Nothing,
    /// A name, with its arguments where it is a call.
    Named {
        name: Name,
        args: Vec<Node>,
    },
    /// An opcode with what follows it. A two-byte opcode `5B xx` is the number 0x5Bxx. `width` tells how many bytes
    /// spell the package length, where the row has one.
    Op {
        opcode: u16,
        width: Option<PkgWidth>,
        parts: Vec<Part>,
        tail: Tail,
    },
}

// Terms and their parts are most of what a run keeps in memory.
const _: () = prove!(size_of::<Node>() == 72);

const _: () = prove!(size_of::<Part>() == 80);

/// A fixed part of an opcode's row.
#[cycle(tree)]
#[derive(Drop)]
pub enum Part {
    Child(Node),
    Label(Name),
    Byte(u8),
    Word(u16),
    Dword(u32),
    Qword(u64),
    /// The bytes of a text, without the 00 that ends it.
    Text(Bytes),
}

/// What follows the parts up to the end of the package.
#[cycle(tree)]
#[derive(Drop)]
pub enum Tail {
    /// The row has no tail.
    Empty,
    Terms(Vec<Node>),
    Bytes(Bytes),
    Elements(Vec<Node>),
    Fields(Vec<Field>),
    /// A method's body, which isn't read with its table: where it begins in the table's AML, and its length, in bytes.
    Body { start: u32, len: u32 },
}

/// An element of a field list (ACPI 6.5, 20.2.5.2).
#[cycle(tree)]
#[derive(Drop)]
pub enum Field {
    /// NamedField: a segment and its number of bits, spelled as a package length.
    NamedUnit {
        seg: Seg,
        width: PkgWidth,
        bits: u32,
    },
    /// ReservedField: a number of bits.
    Reserved {
        width: PkgWidth,
        bits: u32,
    },
    /// AccessField: access type and access attribute.
    Access(u8, u8),
    /// ConnectField.
    Connection(Link),
    /// ExtendedAccessField: access type, access attribute and access length.
    Extended(u8, u8, u8),
}

/// What a connection leads to.
#[cycle(tree)]
#[derive(Drop)]
pub enum Link {
    Target(Name),
    Buffer(Node),
}

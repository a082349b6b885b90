//! The numbers of constants.
ghost use Rattle.std.specs.Prelude.{◌≡◌, if◌then◌else◌, ◌==◌};
ghost use Rattle.aml_code.specs.View.{node_view, part_view, parts_view};
ghost use Rattle.aml_walk.specs.Numbers.{number_of, spelled_number, plain_number, part_number};

use crate::opcodes;
use aml_code::{Node, Part};

/// The number of an opcode that is a constant by itself.
fn plain_number(opcode: u16) -> Option<u64>
    ensures { result ≡ plain_number opcode }
{
    if opcode == opcodes::ZERO {
        Some(0)
    } else if opcode == opcodes::ONE {
        Some(1)
    } else if opcode == opcodes::ONES {
        Some(u64::MAX)
    } else {
        None
    }
}

/// A number where it stands behind its own opcode.
fn number_behind(opcode: u16, own: u16, number: u64) -> Option<u64>
    ensures { result ≡ (if opcode == own then Some number else None) }
{
    if opcode == own { Some(number) } else { None }
}

/// The number of an opcode with one part.
fn part_number(opcode: u16, part: &Part) -> Option<u64>
    ensures { result ≡ part_number opcode (part_view part.now) }
{
    match part {
        Part::Byte(number) => number_behind(opcode, opcodes::BYTE, u64::from(*number)),
        Part::Word(number) => number_behind(opcode, opcodes::WORD, u64::from(*number)),
        Part::Dword(number) => number_behind(opcode, opcodes::DWORD, u64::from(*number)),
        Part::Qword(number) => number_behind(opcode, opcodes::QWORD, *number),
        _ => None,
    }
}

/// The number that an opcode and its parts spell.
fn spelled_number(opcode: u16, parts: &[Part]) -> Option<u64>
    ensures { result ≡ spelled_number opcode (parts_view parts.now) }
{
    match parts {
        [] => plain_number(opcode),
        [part] => part_number(opcode, part),
        [_, _, ..] => None,
    }
}

/// The number of a constant: Zero, One and Ones, and the constants of 1, 2, 4 and 8 bytes (ACPI 6.5, 20.2.3). Ones has
/// all 64 bits set. `None` for any other term.
pub fn number_of(node: &Node) -> Option<u64>
    ensures { result ≡ number_of (node_view node.now) }
{
    match node {
        Node::Op { opcode, parts, .. } => spelled_number(*opcode, parts.as_slice()),
        _ => None,
    }
}

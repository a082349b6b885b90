//! The units of a field list, and what they lie over.
ghost use Rattle.std.specs.Prelude.{◌≡◌, ◌+◌, ◌++◌, IfOk, OnOk};
ghost use Rattle.std.specs.Option.{option_map};
ghost use Rattle.aml_code.specs.View.{node_view, parts_view, tail_view, field_view, fields_view};
ghost use Rattle.aml_walk.specs.Fields.{bits_in, unit_from, units_from, units_in, units_of, base_of_two, base_of_one};
ghost use Rattle.aml_walk.specs.Fields.{base_by, base_of};
ghost use Rattle.aml_walk.specs.FieldViews.{base_view};

use crate::opcodes;
use aml_code::{Field, Name, NoMemory, Node, Part, Seg, Tail};
use std::alloc::{AllocError, Global};

/// A named unit of a field list.
#[derive(Clone, Copy)]
pub struct FieldUnit {
    pub segment: Seg,
    /// Its first bit, from the start of what the list lies over.
    pub bit: u64,
    /// How many bits it has.
    pub bits: u32,
}

/// What a field list lies over.
#[derive(Clone, Copy)]
pub enum FieldBase<'a> {
    /// Of a Field: its region.
    Region(&'a Name),
    /// Of an IndexField: its index register and its data register.
    Index(&'a Name, &'a Name),
    /// Of a BankField: its region and its bank register.
    Bank(&'a Name, &'a Name),
}

/// How many bits an element takes.
fn bits_in(field: &Field) -> u32
    ensures { result ≡ bits_in (field_view field.now) }
{
    match field {
        Field::NamedUnit { bits, .. } | Field::Reserved { bits, .. } => *bits,
        _ => 0,
    }
}

/// The bit behind so many. A list whose bits no number of 64 bits counts fits no memory.
fn bit_behind(bit: u64, bits: u32) -> Result<u64, NoMemory>
    ensures { IfOk result (λ behind. behind ≡ bit + bits) }
{
    match bit.checked_add(u64::from(bits)) {
        Some(behind) => Ok(behind),
        None => Err(AllocError),
    }
}

/// Adds the unit that an element declares.
fn add_unit(bit: u64, field: &Field, units: &mut Vec<FieldUnit>) -> Result<(), NoMemory>
    ensures { OnOk result (units.new.items ≡ units.old.items ++ unit_from bit (field_view field.now)) }
{
    if let Field::NamedUnit { seg, bits, .. } = field {
        units.push(FieldUnit {
            segment: *seg,
            bit,
            bits: *bits,
        })?;
    }
    Ok(())
}

fn units_from(alloc: Global, fields: &[Field]) -> Result<Vec<FieldUnit>, NoMemory>
    ensures { IfOk result (λ units. units.items ≡ units_from 0 (fields_view fields.now)) }
{
    let mut units = Vec::new(alloc);
    let mut bit = 0;
    for field in fields {
        add_unit(bit, field, &mut units)?;
        bit = bit_behind(bit, bits_in(field))?;
    }
    Ok(units)
}

fn units_in(alloc: Global, tail: &Tail) -> Result<Vec<FieldUnit>, NoMemory>
    ensures { IfOk result (λ units. units.items ≡ units_in (tail_view tail.now)) }
{
    match tail {
        Tail::Fields(fields) => units_from(alloc, fields.as_slice()),
        _ => Ok(Vec::new(alloc)),
    }
}

/// The units of a Field, an IndexField or a BankField, in order. Another term has none.
pub fn units_of(alloc: Global, term: &Node) -> Result<Vec<FieldUnit>, NoMemory>
    ensures { IfOk result (λ units. units.items ≡ units_of (node_view term.now)) }
{
    match term {
        Node::Op { tail, .. } => units_in(alloc, tail),
        _ => Ok(Vec::new(alloc)),
    }
}

fn base_of_two<'a>(opcode: u16, first: &'a Name, second: &'a Name) -> Option<FieldBase<'a>>
    ensures { option_map base_view result ≡ base_of_two opcode first.now second.now }
{
    if opcode == opcodes::INDEX_FIELD {
        Some(FieldBase::Index(first, second))
    } else if opcode == opcodes::BANK_FIELD {
        Some(FieldBase::Bank(first, second))
    } else {
        None
    }
}

fn base_of_one<'a>(opcode: u16, name: &'a Name) -> Option<FieldBase<'a>>
    ensures { option_map base_view result ≡ base_of_one opcode name.now }
{
    if opcode == opcodes::FIELD {
        Some(FieldBase::Region(name))
    } else {
        None
    }
}

fn base_by(opcode: u16, parts: &[Part]) -> Option<FieldBase<'_>>
    ensures { option_map base_view result ≡ base_by opcode (parts_view parts.now) }
{
    match parts {
        [Part::Label(first), Part::Label(second), ..] => base_of_two(opcode, first, second),
        [Part::Label(name), ..] => base_of_one(opcode, name),
        _ => None,
    }
}

/// What the field list of a term lies over, by name: a name that `Space::find` looks up from the term's scope. `None`
/// for a term that isn't a Field, an IndexField or a BankField.
pub fn base_of(term: &Node) -> Option<FieldBase<'_>>
    ensures { option_map base_view result ≡ base_of (node_view term.now) }
{
    match term {
        Node::Op { opcode, parts, .. } => base_by(*opcode, parts.as_slice()),
        _ => None,
    }
}

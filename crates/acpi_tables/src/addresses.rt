//! The tables that list the addresses of the others: the Root System Description Table, and the Extended one (ACPI 6.5,
//! sections 5.2.7 and 5.2.8). They differ in how many bytes an address has.
#![tactic(auto, using(crate::proofs::Cells::cells))]

ghost use Rattle.std.specs.Prelude.{◌≡◌, ◌⊎◌, ◌↔◌, ◌<◌, ◌≤◌, length, IsTrue, IfOk, IfErr, OnOk};
ghost use Rattle.acpi_tables.specs.Header.{HoldsAddresses, address_width, addresses_of, address_count, address_at};
ghost use Rattle.acpi_tables.specs.Header.{address_bytes, address_in};
ghost use Rattle.acpi_tables.specs.declared.faults.Bad.TheVariants.{BadRoot, NoMemory};

use crate::bytes::little_endian;
use crate::faults::Bad;
use crate::header::HEADER_LENGTH;
use std::alloc::Global;

/// How many bytes an address has in a table that lists addresses.
#[derive(Clone, Copy)]
pub enum AddressWidth {
    /// Four, in an RSDT.
    Four,
    /// Eight, in an XSDT.
    Eight,
}

impl AddressWidth {
    fn bytes(self) -> usize
        ensures is { result ≡ address_width self }
        ensures some { 0 < result }
        ensures narrow { result ≤ 8 }
    {
        match self {
            AddressWidth::Four => 4,
            AddressWidth::Eight => 8,
        }
    }
}

/// The readers of a Root System Description Table.
pub struct Rsdt;

/// The readers of an Extended System Description Table.
pub struct Xsdt;

impl Rsdt {
    /// The addresses that an RSDT lists. `table` is the first Length bytes of a dump.
    ///
    /// # Errors
    /// `Bad::BadRoot` where the table has fewer than 36 bytes, or those after 36 aren't a multiple of 4.
    pub fn entries(alloc: Global, table: &[u8]) -> Result<Vec<u64>, Bad>
        ensures holds { OnOk result (HoldsAddresses 4 table.now) }
        ensures entries { IfOk result (λ entries. entries.items ≡ addresses_of 4 table.now) }
        ensures bad_root { IfErr result (λ bad. (bad ≡ NoMemory) ⊎
            ((bad ≡ BadRoot) × ¬ HoldsAddresses 4 table.now)) }
    {
        addresses_of(alloc, table, AddressWidth::Four)
    }

    /// The member of `entries` at this index. It takes no memory, and is `None` where `entries` refuses the table.
    pub fn entry(table: &[u8], index: usize) -> Option<u64>
        ensures { result ≡ address_in 4 table.now index }
    {
        address_in(table, AddressWidth::Four, index)
    }
}

impl Xsdt {
    /// The addresses that an XSDT lists. `table` is the first Length bytes of a dump.
    ///
    /// # Errors
    /// `Bad::BadRoot` where the table has fewer than 36 bytes, or those after 36 aren't a multiple of 8.
    pub fn entries(alloc: Global, table: &[u8]) -> Result<Vec<u64>, Bad>
        ensures holds { OnOk result (HoldsAddresses 8 table.now) }
        ensures entries { IfOk result (λ entries. entries.items ≡ addresses_of 8 table.now) }
        ensures bad_root { IfErr result (λ bad. (bad ≡ NoMemory) ⊎
            ((bad ≡ BadRoot) × ¬ HoldsAddresses 8 table.now)) }
    {
        addresses_of(alloc, table, AddressWidth::Eight)
    }

    /// The member of `entries` at this index. It takes no memory, and is `None` where `entries` refuses the table.
    pub fn entry(table: &[u8], index: usize) -> Option<u64>
        ensures { result ≡ address_in 8 table.now index }
    {
        address_in(table, AddressWidth::Eight, index)
    }
}

/// The addresses of this width that a table lists.
fn addresses_of(alloc: Global, table: &[u8], width: AddressWidth) -> Result<Vec<u64>, Bad>
    ensures holds { OnOk result (HoldsAddresses (address_width width) table.now) }
    ensures entries { IfOk result (λ addresses. addresses.items ≡ addresses_of (address_width width) table.now) }
    ensures bad_root { IfErr result (λ bad. (bad ≡ NoMemory) ⊎
        ((bad ≡ BadRoot) × ¬ HoldsAddresses (address_width width) table.now)) }
{
    check_addresses(table, width)?;
    let addresses = (0..address_count(table, width))
        .map(|index| address_at(table, width, index))
        .collect(alloc)?;
    Ok(addresses)
}

/// The address of this width at this index, if the table lists one there.
fn address_in(table: &[u8], width: AddressWidth, index: usize) -> Option<u64>
    ensures { result ≡ address_in (address_width width) table.now index }
{
    if !holds_addresses(table, width) || index >= address_count(table, width) {
        return None;
    }
    Some(address_at(table, width, index))
}

/// Whether a table is cut into addresses of this width, and else what is wrong with it.
pub(crate) fn check_addresses(table: &[u8], width: AddressWidth) -> Result<(), Bad>
    ensures holds { OnOk result (HoldsAddresses (address_width width) table.now) }
    ensures bad_root { IfErr result (λ bad. (bad ≡ BadRoot) × (¬ HoldsAddresses (address_width width) table.now)) }
{
    if !holds_addresses(table, width) {
        return Err(Bad::BadRoot);
    }
    Ok(())
}

fn holds_addresses(table: &[u8], width: AddressWidth) -> bool
    ensures { IsTrue result ↔ HoldsAddresses (address_width width) table.now }
{
    table.len() >= HEADER_LENGTH && (table.len() - HEADER_LENGTH) % width.bytes() == 0
}

/// How many addresses of this width a table lists.
pub fn address_count(table: &[u8], width: AddressWidth) -> usize
    requires holds { HoldsAddresses (address_width width) table.now }
    ensures { result ≡ address_count (address_width width) table.now }
{
    (table.len() - HEADER_LENGTH) / width.bytes()
}

/// The address of this width at this index of a table.
pub(crate) fn address_at(table: &[u8], width: AddressWidth, index: usize) -> u64
    requires holds { HoldsAddresses (address_width width) table.now }
    requires inside { index < address_count (address_width width) table.now }
    ensures { result ≡ address_at (address_width width) table.now index }
{
    little_endian(address_bytes(table, width, index))
}

/// The bytes of the address of this width at this index of a table.
pub fn address_bytes(table: &[u8], width: AddressWidth, index: usize) -> &[u8]
    requires holds { HoldsAddresses (address_width width) table.now }
    requires inside { index < address_count (address_width width) table.now }
    ensures bytes { result.now ≡ address_bytes (address_width width) table.now index }
    ensures width { length result.now ≡ address_width width }
    ensures narrow { length result.now ≤ 8 }
{
    let width = width.bytes();
    let at = HEADER_LENGTH + index * width;
    &table[at..at + width]
}

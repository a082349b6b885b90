//! The order of the definition blocks where addresses lead from the RSDP over the XSDT or RSDT and the FADT to a DSDT.
ghost use Rattle.std.specs.Prelude.{◌≡◌, ◌⊎◌, ◌<◌, ◌≤◌, None, Err, true, codes, filter, find, length, IfOk, IfErr};
ghost use Rattle.std.specs.Prelude.{[], filter_map, if◌then◌else◌};
ghost use Rattle.std.specs.List.{fold, range_with_len};
ghost use Rattle.std.specs.Option.{option_map, unwrap_or};
ghost use Rattle.acpi_tables.specs.Header.{HoldsRoot, HoldsTable, table_of, HoldsAddresses};
ghost use Rattle.acpi_tables.specs.Header.{address_width, addresses_of};
ghost use Rattle.acpi_tables.specs.Order.{AreTaken, IsChained, bytes_of, chain_of, dump_at, signed_at};
ghost use Rattle.acpi_tables.specs.Order.{list_of, with_more, listed_by, dsdt_address, has_signature};
ghost use Rattle.acpi_tables.specs.Bytes.{begins_with};
ghost use Rattle.acpi_tables.specs.declared.faults.Bad.TheVariants.{NoMemory};

use crate::addresses::{AddressWidth, address_at, address_count};
use crate::bytes::{begins_with, u32_at, u64_at};
use crate::dump::{Dump, table_of};
use crate::fadt::{DSDT_AT, X_DSDT_AT, X_DSDT_END};
use crate::faults::{Bad, TableFault};
use crate::indexes::{bytes_of, dump_at, has_signature};
use crate::order::Order;
use crate::rsdp::{Rsdp, Wide};
use crate::signatures::{DSDT, FACP, RSDP, RSDT, SSDT, XSDT};
use std::alloc::{AllocError, Global};

/// The order that the chain gives.
pub(crate) fn order_by_chain(alloc: Global, dumps: &[Dump]) -> Result<Order, TableFault>
    requires { AreTaken dumps.now true }
    ensures order { IfOk result (λ order. IsChained dumps.now order.dsdt order.ssdts.items) }
    ensures refused { IfErr result (λ fault. (fault ≡ record { dump = None; bad = NoMemory }) ⊎
        (chain_of dumps.now ≡ Err fault)) }
{
    let root = root_of(dumps).ok_or(TableFault::of_set(Bad::RootMissing))?;
    let pointer = bytes_of(dumps, root);
    let list = list_of(dumps, pointer).ok_or(TableFault::of_dump(root, Bad::RootMissing))?;
    let listed = listed_by(alloc, dumps, list)?;
    let fadt = first_of(dumps, &listed, &FACP).ok_or(TableFault::of_dump(list, Bad::FadtMissing))?;
    let dsdt = dsdt_of(dumps, fadt).ok_or(TableFault::of_set(Bad::NoDsdt))?;
    let ssdts = all_of(alloc, dumps, &listed, &SSDT)?;
    Ok(Order { dsdt, ssdts })
}

/// The first RSDP.
fn root_of(dumps: &[Dump]) -> Option<usize>
    ensures { result ≡ find (has_signature dumps.now (codes "RSD PTR ")) (range_with_len 0 (length dumps.now)) }
{
    (0..dumps.len()).find(|index| has_signature(dumps, *index, &RSDP))
}

/// The XSDT that an RSDP leads to, or else the RSDT.
fn list_of(dumps: &[Dump], pointer: &[u8]) -> Option<usize>
    requires { HoldsRoot pointer.now }
    ensures { result ≡ list_of dumps.now pointer.now }
{
    let root = Rsdp::of(pointer);
    let xsdt = xsdt_address(root.wide);
    if xsdt == 0 {
        signed_at(dumps, &RSDT, u64::from(root.rsdt))
    } else {
        signed_at(dumps, &XSDT, xsdt)
    }
}

/// The address of the XSDT that an RSDP gives, and 0 where it gives none.
fn xsdt_address(wide: Option<Wide>) -> u64
    ensures { result ≡ unwrap_or (option_map (λ w. w.xsdt) wide) 0 }
{
    wide.map(|wide| wide.xsdt).unwrap_or(0)
}

/// The first dump at this address, if it has this signature.
fn signed_at(dumps: &[Dump], signature: &[u8], address: u64) -> Option<usize>
    ensures { result ≡ signed_at dumps.now signature.now address }
{
    dump_at(dumps, address).filter(|index| has_signature(dumps, *index, signature))
}

/// The dumps that an XSDT or an RSDT lists, in its order, each where it stands first.
fn listed_by(alloc: Global, dumps: &[Dump], list: usize) -> Result<Vec<usize>, AllocError>
    requires table { HoldsTable (bytes_of dumps.now list) }
    requires holds { HoldsAddresses (if has_signature dumps.now (codes "XSDT") list then 8 else 4)
        (table_of (bytes_of dumps.now list)) }
    ensures { IfOk result (λ listed. listed.items ≡ listed_by dumps.now list) }
{
    let bytes = bytes_of(dumps, list);
    listed_in(alloc, dumps, table_of(bytes), width_of(bytes))
}

/// How many bytes an address has in a list with this signature.
fn width_of(list: &[u8]) -> AddressWidth
    ensures { address_width result ≡ (if begins_with list.now (codes "XSDT") then 8 else 4) }
{
    if begins_with(list, &XSDT) {
        AddressWidth::Eight
    } else {
        AddressWidth::Four
    }
}

/// Those that a table with addresses of this width lists.
fn listed_in(
    alloc: Global,
    dumps: &[Dump],
    table: &[u8],
    width: AddressWidth,
) -> Result<Vec<usize>, AllocError>
    requires holds { HoldsAddresses (address_width width) table.now }
    ensures { IfOk result (λ v. v.items
        ≡ fold with_more [] (filter_map (dump_at dumps.now) (addresses_of (address_width width) table.now))) }
{
    let mut listed = Vec::new(alloc);
    for index in 0..address_count(table, width) {
        if let Some(dump) = dump_at(dumps, address_at(table, width, index)) {
            if !listed.contains(&dump) {
                listed.push(dump)?;
            }
        }
    }
    Ok(listed)
}

/// The first of these dumps that has this signature.
fn first_of(dumps: &[Dump], listed: &[usize], signature: &[u8]) -> Option<usize>
    ensures { result ≡ find (has_signature dumps.now signature.now) listed.now }
{
    listed
        .iter()
        .copied()
        .find(|index| has_signature(dumps, *index, signature))
}

/// The DSDT whose address a FADT gives.
fn dsdt_of(dumps: &[Dump], fadt: usize) -> Option<usize>
    requires table { HoldsTable (bytes_of dumps.now fadt) }
    requires holds { 116 ≤ length (table_of (bytes_of dumps.now fadt)) }
    ensures { result ≡ signed_at dumps.now (codes "DSDT") (dsdt_address (table_of (bytes_of dumps.now fadt))) }
{
    signed_at(dumps, &DSDT, dsdt_address(table_of(bytes_of(dumps, fadt))))
}

/// The DSDT's address in a FADT.
fn dsdt_address(table: &[u8]) -> u64
    requires { 116 ≤ length table.now }
    ensures { result ≡ dsdt_address table.now }
{
    if table.len() >= X_DSDT_END {
        let address = u64_at(table, X_DSDT_AT);
        if address != 0 {
            return address;
        }
    }
    u64::from(u32_at(table, DSDT_AT))
}

/// Those of these dumps that have this signature.
fn all_of(
    alloc: Global,
    dumps: &[Dump],
    listed: &[usize],
    signature: &[u8],
) -> Result<Vec<usize>, AllocError>
    ensures { IfOk result (λ found. found.items ≡ filter (has_signature dumps.now signature.now) listed.now) }
{
    listed
        .iter()
        .copied()
        .filter(|index| has_signature(dumps, *index, signature))
        .collect(alloc)
}

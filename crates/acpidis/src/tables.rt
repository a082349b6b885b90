//! The tables of a set, before they are read.
ghost use Rattle.std.specs.Prelude.{◌≡◌, ◌≤◌, IfOk, drop, length};
ghost use Rattle.aml_set.specs.Views.{table_codes, table_dumps};
ghost use Rattle.acpi_tables.specs.Dumps.{most_bytes};
ghost use Rattle.acpi_tables.specs.Header.{HoldsTable, table_of as table_in};
ghost use Rattle.acpi_tables.specs.Order.{AreTables, bytes_of};
ghost use Rattle.aml_text.specs.Listing.{indexes_in};
ghost use Rattle.acpidis.specs.Bodies.{codes_in};

use acpi_tables::{Dump, HEADER_LENGTH, Order, bytes_of, table_of};
use aml_code::NoMemory;
use aml_set::Table;
use std::alloc::Global;

/// The AML of a definition block: what follows its header, to the end of the table (ACPI 6.5, 5.2.11.1).
fn aml_in(bytes: &[u8]) -> &[u8]
    requires table { HoldsTable bytes.now }
    ensures { result.now ≡ drop 36 (table_in bytes.now) }
{
    &table_of(bytes)[HEADER_LENGTH..]
}

/// The table of a dump.
fn table_at<'a>(alloc: Global, dumps: &'a [Dump], dump: usize) -> Table<'a>
    requires table { HoldsTable (bytes_of dumps.now dump) }
    requires short { length (bytes_of dumps.now dump) ≤ most_bytes }
    ensures of_dump { result.dump ≡ dump }
    ensures of_code { result.code.now ≡ drop 36 (table_in (bytes_of dumps.now dump)) }
{
    Table::unread(alloc, dump, aml_in(bytes_of(dumps, dump)))
}

/// The tables of an order, the DSDT first, which aren't read yet.
pub(crate) fn tables_of<'a>(
    alloc: Global,
    dumps: &'a [Dump],
    order: &Order,
) -> Result<Vec<Table<'a>>, NoMemory>
    requires tables { AreTables dumps.now (indexes_in order.now) }
    ensures dumps { IfOk result (λ tables. table_dumps tables.items ≡ indexes_in order.now) }
    ensures codes { IfOk result (λ tables. table_codes tables.items ≡ codes_in dumps.now (indexes_in order.now)) }
{
    let mut tables = Vec::new(alloc);
    tables.push(table_at(alloc, dumps, order.dsdt))?;
    for index in &order.ssdts {
        tables.push(table_at(alloc, dumps, *index))?;
    }
    Ok(tables)
}

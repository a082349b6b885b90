//! The lines below an XSDT or an RSDT: its addresses.
#![tactic(auto, using(text_writer::proofs::PrintLaws::straight), unfolding(crate::specs::Dumps::entry_text))]

ghost use Rattle.std.specs.Prelude.{◌≤◌, length};
ghost use Rattle.text_writer.specs.Prints.{Prints};
ghost use Rattle.acpi_tables.specs.Header.{HoldsAddresses, address_width};
ghost use Rattle.acpi_text.specs.Dumps.{owner_text, entry_text, entry_line, entry_lines};

use crate::fields::print_reversed;
use crate::labels::put_quoted;
use acpi_tables::{
    AddressWidth, Dump, address_bytes, address_count, dump_at, little_endian, name_of,
};
use std::io::Write;
use text_writer::Out;

/// The name of the first dump at an address, where there is one.
fn print_owner<W: Write>(out: &mut Out<'_, W>, dumps: &[Dump], address: u64)
    ensures { Prints W.contents out.old out.new (owner_text dumps.now address) }
{
    if let Some(index) = dump_at(dumps, address) {
        put_quoted(out, b" ", name_of(dumps, index));
    }
}

/// The bytes of an address, and the name of the dump there.
fn print_entry_text<W: Write>(out: &mut Out<'_, W>, dumps: &[Dump], bytes: &[u8])
    requires narrow { length bytes.now ≤ 8 }
    ensures { Prints W.contents out.old out.new (entry_text dumps.now bytes.now) }
{
    out.put(b"Entry ");
    print_reversed(out, bytes);
    print_owner(out, dumps, little_endian(bytes));
}

fn print_entry<W: Write>(out: &mut Out<'_, W>, dumps: &[Dump], bytes: &[u8])
    requires narrow { length bytes.now ≤ 8 }
    ensures { Prints W.contents out.old out.new (entry_line dumps.now bytes.now) }
{
    out.put(b"  ");
    print_entry_text(out, dumps, bytes);
    out.put(b"\n");
}

/// The addresses of this width that a table lists, each with the name of the dump there.
pub(crate) fn print_entries<W: Write>(
    out: &mut Out<'_, W>,
    dumps: &[Dump],
    width: AddressWidth,
    table: &[u8],
)
    requires { HoldsAddresses (address_width width) table.now }
    ensures { Prints W.contents out.old out.new (entry_lines dumps.now (address_width width) table.now) }
{
    for index in 0..address_count(table, width) {
        print_entry(out, dumps, address_bytes(table, width, index));
    }
}

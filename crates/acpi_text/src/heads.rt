//! The line of a dump.
#![tactic(auto, using(text_writer::proofs::PrintLaws::straight), unfolding(crate::specs::Dumps::line_by))]

ghost use Rattle.std.specs.Prelude.{◌++◌, codes, decimal};
ghost use Rattle.text_writer.specs.Prints.{Prints, quoted, word};
ghost use Rattle.acpi_tables.specs.Dumps.{HoldsShape};
ghost use Rattle.acpi_text.specs.Dumps.{if_there, wide_text, root_text, header_text, head_by, address_text, sum_text};
ghost use Rattle.acpi_text.specs.Dumps.{line_by};

use crate::labels::{put_decimal, put_hex8, put_hex16, put_quoted};
use acpi_tables::{Dump, Header, Kind, LENGTH_AT, Rsdp, Wide, u32_at};
use std::io::Write;
use text_writer::Out;

/// What revision 2 added to the RSDP.
fn print_wide<W: Write>(out: &mut Out<'_, W>, wide: Option<Wide>)
    ensures { Prints W.contents out.old out.new (if_there wide_text wide) }
{
    if let Some(wide) = wide {
        put_decimal(out, b" Length ", wide.length as u64);
        put_hex16(out, b" Xsdt ", wide.xsdt);
    }
}

fn print_root<W: Write>(out: &mut Out<'_, W>, rsdp: &Rsdp)
    ensures { Prints W.contents out.old out.new (root_text rsdp.now) }
{
    put_quoted(out, b" Oem ", &rsdp.oem);
    put_decimal(out, b" Revision ", rsdp.revision as u64);
    put_hex8(out, b" Rsdt ", rsdp.rsdt);
    print_wide(out, rsdp.wide);
}

fn print_header<W: Write>(out: &mut Out<'_, W>, header: &Header)
    ensures { Prints W.contents out.old out.new (header_text header.now) }
{
    put_quoted(out, b" ", &header.signature);
    put_decimal(out, b" Length ", header.length as u64);
    put_decimal(out, b" Revision ", header.revision as u64);
    put_quoted(out, b" Oem ", &header.oem_id);
    put_quoted(out, b" ", &header.oem_table_id);
    put_hex8(out, b" ", header.oem_revision);
    put_quoted(out, b" Creator ", &header.creator_id);
    put_hex8(out, b" ", header.creator_revision);
}

fn print_facs<W: Write>(out: &mut Out<'_, W>, length: u32)
    ensures { Prints W.contents out.old out.new
        ((word " " ++ quoted (codes "FACS")) ++ (word " Length " ++ decimal length)) }
{
    put_quoted(out, b" ", b"FACS");
    put_decimal(out, b" Length ", length as u64);
}

/// The head of a line, by the kind of its dump.
fn print_head<W: Write>(out: &mut Out<'_, W>, kind: Kind, name: &[u8], bytes: &[u8])
    requires shape { HoldsShape kind bytes.now }
    ensures { Prints W.contents out.old out.new (head_by kind name.now bytes.now) }
{
    match kind {
        Kind::Root => {
            put_quoted(out, b"Root ", name);
            print_root(out, &Rsdp::of(bytes));
        }
        Kind::Facs => {
            put_quoted(out, b"Table ", name);
            print_facs(out, u32_at(bytes, LENGTH_AT));
        }
        Kind::Standard(_) => {
            put_quoted(out, b"Table ", name);
            print_header(out, &Header::of(bytes));
        }
    }
}

fn print_address<W: Write>(out: &mut Out<'_, W>, address: Option<u64>)
    ensures { Prints W.contents out.old out.new (address_text address) }
{
    if let Some(address) = address {
        put_hex16(out, b" At ", address);
    }
}

fn print_sum<W: Write>(out: &mut Out<'_, W>, holds: bool)
    ensures { Prints W.contents out.old out.new (sum_text holds) }
{
    if !holds {
        out.put(b" BadSum");
    }
}

fn print_end<W: Write>(out: &mut Out<'_, W>, address: Option<u64>, holds: bool)
    ensures { Prints W.contents out.old out.new (address_text address ++ sum_text holds ++ word "\n") }
{
    print_address(out, address);
    print_sum(out, holds);
    out.put(b"\n");
}

/// The line of a dump of this kind.
pub(crate) fn print_line<W: Write>(out: &mut Out<'_, W>, kind: Kind, dump: &Dump)
    requires shape { HoldsShape kind dump.now.bytes.items }
    ensures { Prints W.contents out.old out.new (line_by kind dump.now) }
{
    print_head(out, kind, dump.name.as_bytes(), &dump.bytes);
    print_end(out, dump.address, kind.sums_hold(&dump.bytes));
}

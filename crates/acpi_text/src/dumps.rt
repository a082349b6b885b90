//! The first part of a listing: the lines of all dumps.
#![tactic(auto, using(text_writer::proofs::PrintLaws::straight))]

ghost use Rattle.std.specs.Prelude.{true};
ghost use Rattle.text_writer.specs.Prints.{Prints};
ghost use Rattle.acpi_tables.specs.Dumps.{HoldsDump, HoldsShape, HoldsContent};
ghost use Rattle.acpi_tables.specs.Order.{AreTaken};
ghost use Rattle.acpi_text.specs.Dumps.{lines_by, dump_lines, dumps_text};

use crate::content::print_entries;
use crate::fields::print_fields;
use crate::heads::print_line;
use crate::records::print_madt;
use acpi_tables::{AddressWidth, Content, Dump, Kind, TableField, table_of};
use std::io::Write;
use text_writer::Out;

/// What stands below the line of a dump of this kind.
fn print_below<W: Write>(out: &mut Out<'_, W>, kind: Kind, dumps: &[Dump], bytes: &[u8])
    requires shape { HoldsShape kind bytes.now }
    requires content { HoldsContent kind bytes.now }
    ensures { Prints W.contents out.old out.new (lines_by kind dumps.now bytes.now) }
{
    match kind {
        Kind::Root | Kind::Facs => {}
        Kind::Standard(content) => match content {
            Content::Xsdt => print_entries(out, dumps, AddressWidth::Eight, table_of(bytes)),
            Content::Rsdt => print_entries(out, dumps, AddressWidth::Four, table_of(bytes)),
            Content::Fadt => print_fields(
                out,
                b"  ",
                b"\n",
                table_of(bytes),
                TableField::of_fadt(),
            ),
            Content::Madt => print_madt(out, table_of(bytes)),
            Content::Other => {}
        },
    }
}

/// The lines of a dump, one of these.
fn print_dump<W: Write>(out: &mut Out<'_, W>, dumps: &[Dump], dump: &Dump)
    requires taken { HoldsDump true dump.now.bytes.items }
    ensures { Prints W.contents out.old out.new (dump_lines dumps.now dump.now) }
{
    let kind = Kind::of(&dump.bytes);
    print_line(out, kind, dump);
    print_below(out, kind, dumps, &dump.bytes);
}

/// The lines of all dumps, in their order. Each of them is one that `load_order` takes with any checksum.
pub fn print_dumps<W: Write>(out: &mut Out<'_, W>, dumps: &[Dump])
    requires taken { AreTaken dumps.now true }
    ensures { Prints W.contents out.old out.new (dumps_text dumps.now) }
{
    for dump in dumps {
        print_dump(out, dumps, dump);
    }
}

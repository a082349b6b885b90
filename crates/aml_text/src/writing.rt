//! A listing, written whole.
ghost use Rattle.std.specs.Prelude.{true, map};
ghost use Rattle.acpi_tables.specs.Order.{AreTaken};
ghost use Rattle.text_writer.specs.Prints.{Writes};
ghost use Rattle.asl_text.specs.Bodies.{printed_lines, bodies_lines};
ghost use Rattle.aml_text.specs.Listing.{shown_text};
ghost use Rattle.aml_text.specs.Told.{kept_text};

use crate::listing::{Listing, Tables};
use crate::rows::{print_rows, print_set_rows};
use crate::tables::print_tables;
use crate::told::print_kept;
use acpi_tables::Dump;
use acpi_text::print_dumps;
use aml_code::CodeFault;
use asl_text::{Bodies, BodyText};
use std::io::Write;
use text_writer::{Out, Print, WriteFault, write_text_in};

/// How many bytes of a listing wait to be written: each call of the writer takes so many.
const ROOM: usize = 65_536;

/// The parts of a listing.
#[derive(Drop)]
struct Parts<'s, 'a>(&'s Listing<'a>);

/// The dumps, the namespace and the definition blocks, in this order.
impl Print for Parts<'_, '_> {
    ghost can_print = { λ parts. AreTaken parts.0.now.dumps.now true };

    ghost text = { λ parts. shown_text parts.0.now };

    fn print<W: Write>(&self, out: &mut Out<'_, W>) {
        print_dumps(out, self.0.dumps);
        print_rows(out, &self.0.loaded.space);
        print_tables(out, self.0, Bodies::Read(self.0.bodies.as_slice()));
    }
}

/// Writes a listing: a line for each dump and what stands below it, then the namespace, then the definition blocks of
/// the loaded tables with the bodies of their methods in their places.
///
/// Where the writer takes no more, it has the first bytes of that text, and the fault says how many.
pub fn write_listing<W: Write>(out: &mut W, listing: &Listing<'_>) -> Result<(), WriteFault>
    // Each dump is one that `load_order` takes with any checksum.
    requires taken { AreTaken listing.now.dumps.now true }
    ensures { Writes (W.contents out.old) (W.contents out.new) (shown_text listing.now) result }
{
    write_text_in(out, &Parts(listing), &mut [0; ROOM])
}

/// The same parts of tables of which texts or terms are kept.
#[derive(Drop)]
struct KeptParts<'s, 'a, 'b> {
    tables: Tables<'s, 'a>,
    bodies: Bodies<'b>,
}

impl Print for KeptParts<'_, '_, '_> {
    ghost can_print = { λ parts. AreTaken parts.tables.dumps.now true };

    ghost text = { λ parts. kept_text parts.tables (bodies_lines parts.bodies) };

    fn print<W: Write>(&self, out: &mut Out<'_, W>) {
        print_dumps(out, self.tables.dumps);
        print_set_rows(out, self.tables);
        print_kept(out, self.tables, self.bodies);
    }
}

/// Writes the same of tables of whose bodies this is kept, each at its level (`body_levels`), or which can't be read.
///
/// Where the writer takes no more, it has the first bytes of that text, and the fault says how many.
pub fn write_printed<W: Write>(
    out: &mut W,
    tables: Tables<'_, '_>,
    bodies: &[Result<BodyText, CodeFault>],
) -> Result<(), WriteFault>
    // Each dump is one that `load_order` takes with any checksum.
    requires taken { AreTaken tables.dumps.now true }
    ensures { Writes (W.contents out.old) (W.contents out.new)
        (kept_text tables.entry (map printed_lines bodies.now)) result }
{
    let parts = KeptParts {
        tables,
        bodies: Bodies::Printed(bodies),
    };
    write_text_in(out, &parts, &mut [0; ROOM])
}

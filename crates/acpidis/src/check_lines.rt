//! The lines that `--check` prints.
#![tactic(auto, using(text_writer::proofs::PrintLaws::straight), unfolding(crate::specs::Checks::check_head))]

ghost use Rattle.std.specs.Prelude.{◌≡◌};
ghost use Rattle.text_writer.specs.Prints.{Prints, Writes};
ghost use Rattle.aml_text.specs.Listing.{blocks_in};
ghost use Rattle.acpidis.specs.Checks.{same_word, check_head, check_line, check_lines, all_same};

use crate::checking::Checked;
use acpi_text::{put_decimal, put_quoted};
use aml_text::{Blocks, Listing};
use std::io::Write;
use text_writer::{Out, WriteFault};

/// How many bytes of the lines wait to be written.
const ROOM: usize = 1024;

/// The file's name, and what is counted first.
fn print_check_head<W: Write>(out: &mut Out<'_, W>, name: &[u8], checked: Checked)
    ensures { Prints W.contents out.old out.new (check_head name.now checked) }
{
    put_quoted(out, b"Check ", name);
    put_decimal(out, b" Bytes ", checked.bytes as u64);
    put_decimal(out, b" Methods ", checked.methods as u64);
}

fn print_same<W: Write>(out: &mut Out<'_, W>, same: bool)
    ensures { Prints W.contents out.old out.new (same_word same) }
{
    if same {
        out.put(b" Same\n");
    } else {
        out.put(b" Differs\n");
    }
}

/// The line of a table, by its file's name.
fn print_check<W: Write>(out: &mut Out<'_, W>, name: &[u8], checked: Checked)
    ensures { Prints W.contents out.old out.new (check_line name.now checked) }
{
    print_check_head(out, name, checked);
    put_decimal(out, b" Raw ", checked.raw as u64);
    print_same(out, checked.same);
}

/// The lines of the tables of a set.
fn print_checks<W: Write, T: Blocks>(out: &mut Out<'_, W>, tables: &T, checks: &[Checked])
    ensures { Prints W.contents out.old out.new (check_lines (T.blocks tables.now) checks.now) }
{
    for table in 0..tables.count().min(checks.len()) {
        print_check(out, tables.block(table).name, checks[table]);
    }
}

/// Writes a line for each table of a set.
pub(crate) fn write_tables<W: Write, T: Blocks>(
    out: &mut W,
    tables: &T,
    checks: &[Checked],
) -> Result<(), WriteFault>
    ensures { Writes (W.contents out.old) (W.contents out.new)
        (check_lines (T.blocks tables.now) checks.now) result }
{
    let mut buffer = [0; ROOM];
    let mut sink = Out::new(out, &mut buffer);
    print_checks(&mut sink, tables, checks);
    sink.finish()
}

/// Writes a line for each table of a listing: what `check` says of it, and whether it is `Same` or `Differs`.
///
/// Where the writer takes no more, it has the first bytes of that text, and the fault says how many.
pub fn write_checks<W: Write>(
    out: &mut W,
    listing: &Listing<'_>,
    checks: &[Checked],
) -> Result<(), WriteFault>
    ensures { Writes (W.contents out.old) (W.contents out.new) (check_lines (blocks_in listing.now) checks.now) result }
{
    write_tables(out, listing, checks)
}

/// Whether all tables are the same.
pub(crate) fn are_same(checks: &[Checked]) -> bool
    ensures { result ≡ all_same checks.now }
{
    checks.iter().all(|checked| checked.same)
}

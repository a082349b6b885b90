//! Definition blocks of tables, each by the text that is kept of its terms, or by the terms where there is none.
ghost use Rattle.std.specs.Prelude.{◌≡◌, ◌++◌, OnOk, drop};
ghost use Rattle.std.specs.Option.{option_map};
ghost use Rattle.text_writer.specs.Prints.{Prints};
ghost use Rattle.asl_text.specs.Bodies.{bodies_lines};
ghost use Rattle.asl_text.specs.Tables.{place_levels};
ghost use Rattle.aml_text.specs.Told.{first_text, table_text, table_left, kept_blocks};

use crate::listing::Tables;
use acpi_tables::name_of;
use aml_code::NoMemory;
use aml_set::Table;
use asl_text::{Bodies, TableText, print_block, print_told_block};
use std::io::Write;
use text_writer::Out;

/// The first of some texts, if there is one.
pub(crate) fn first_text(texts: &[Option<TableText>]) -> Option<&TableText>
    ensures { option_map (λ t. t.now) result ≡ first_text texts.now }
{
    match texts {
        [Some(text), ..] => Some(text),
        _ => None,
    }
}

/// The texts but for the first.
pub(crate) fn other_texts(texts: &[Option<TableText>]) -> &[Option<TableText>]
    ensures { result.now ≡ drop 1 texts.now }
{
    match texts {
        [] => texts,
        [_, rest @ ..] => rest,
    }
}

/// A table that is printed as a definition block: the name of its file, and the text of its terms, if that is kept.
#[derive(Clone, Copy)]
struct KeptTable<'s, 'a> {
    name: &'s [u8],
    table: &'s Table<'a>,
    text: Option<&'s TableText>,
}

/// The definition block of a table. Answers the bodies that are left.
fn print_table<'b, W: Write>(
    out: &mut Out<'_, W>,
    kept: KeptTable<'_, '_>,
    bodies: Bodies<'b>,
) -> Bodies<'b>
    ensures prints { Prints W.contents out.old out.new (table_text kept.entry.name.now kept.entry.table.now
        (option_map (λ t. t.now) kept.entry.text) (bodies_lines bodies.entry)) }
    ensures others { bodies_lines result ≡ table_left kept.entry.table.now
        (option_map (λ t. t.now) kept.entry.text) (bodies_lines bodies.entry) }
{
    let code = kept.table.code;
    match kept.text {
        Some(text) => print_told_block(out, kept.name, code, text, bodies),
        None => print_block(out, kept.name, code, kept.table.terms.as_slice(), bodies),
    }
}

/// The definition blocks of tables, in load order, with the bodies of their methods.
pub(crate) fn print_kept<W: Write>(out: &mut Out<'_, W>, tables: Tables<'_, '_>, bodies: Bodies<'_>)
    ensures { Prints W.contents out.old out.new (kept_blocks tables.entry.dumps.now
        tables.entry.set.now.tables.items tables.entry.texts.now (bodies_lines bodies.entry)) }
{
    let mut rest = bodies;
    let mut texts = tables.texts;
    for table in &tables.set.tables {
        let kept = KeptTable {
            name: name_of(tables.dumps, table.dump),
            table,
            text: first_text(texts),
        };
        rest = print_table(out, kept, rest);
        texts = other_texts(texts);
    }
}

/// The levels of the bodies in the text of a table, behind the others.
pub(crate) fn push_place_levels(levels: &mut Vec<u32>, text: &TableText) -> Result<(), NoMemory>
    ensures { OnOk result (levels.new.items ≡ levels.old.items ++ place_levels text.now.places.items) }
{
    for place in &text.places {
        levels.push(place.level)?;
    }
    Ok(())
}

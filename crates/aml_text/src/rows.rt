//! The namespace: a line for each declared path.
#![tactic(auto, using(crate::proofs::RowLaws::printing))]

ghost use Rattle.std.specs.Prelude.{◌≡◌, ◌≤◌, ◌++◌, ◌∷◌, false, length, decimal, flat_map};
ghost use Rattle.std.specs.FinMap as map;
ghost use Rattle.text_writer.specs.Prints.{Prints, word};
ghost use Rattle.asl_text.specs.Texts.{line};
ghost use Rattle.aml_text.specs.Rows.{path_text, kind_text, maybe_text, times_text, marked_text, row_line};
ghost use Rattle.aml_text.specs.Rows.{namespace_text};

use crate::listing::Tables;
use aml_names::Seg;
use aml_space::{Kind, Row, Rows, Space, SpacePath};
use asl_text::{print_indent, print_segments};
use std::io::Write;
use text_writer::{Out, print_decimal};

/// How many segments of a path are printed at a time, as long as no path is deeper.
pub(crate) const SMALL_WINDOW: usize = 64;

/// How many behind the first deeper one, 512 KB of them on the stack: a little more than the deepest path has that 510
/// Devices of 255 segments make. A deeper path would be gone up once for each so many.
const WINDOW: usize = 131_072;

/// What each path begins with.
fn print_root<W: Write>(out: &mut Out<'_, W>)
    ensures { Prints W.contents out.old out.new (word "\\") }
{
    out.put(b"\\");
}

fn print_method<W: Write>(out: &mut Out<'_, W>, args: u8)
    ensures { Prints W.contents out.old out.new (kind_text (Kind.Method args)) }
{
    out.put(b"Method ");
    print_decimal(out, args as u64);
}

/// A path, as many segments at a time as a window takes, so that it needs no memory of its own.
fn print_path<W: Write>(out: &mut Out<'_, W>, path: &SpacePath<'_>, window: &mut [Seg])
    requires room { 1 ≤ length window.old }
    ensures text { Prints W.contents out.old out.new (path_text path.now) }
    ensures long { length window.new ≡ length window.old }
{
    let depth = path.depth();
    let mut done = path.copy_segs(0, window);
    print_root(out);
    print_segments(out, &window[..done]);
    while done < depth {
        let count = path.copy_segs(done, window);
        out.put(b".");
        print_segments(out, &window[..count]);
        done += count;
    }
}

fn print_alias<W: Write>(out: &mut Out<'_, W>, target: &SpacePath<'_>, window: &mut [Seg])
    requires room { 1 ≤ length window.old }
    ensures text { Prints W.contents out.old out.new (kind_text (Kind.Alias false target.now)) }
    ensures long { length window.new ≡ length window.old }
{
    out.put(b"Alias ");
    print_path(out, target, window);
}

/// What a path stands for.
fn print_kind<W: Write>(out: &mut Out<'_, W>, kind: &Kind<SpacePath<'_>>, window: &mut [Seg])
    requires room { 1 ≤ length window.old }
    ensures text { Prints W.contents out.old out.new (kind_text kind.now) }
    ensures long { length window.new ≡ length window.old }
{
    match kind {
        Kind::Scope => out.put(b"Scope"),
        Kind::Name => out.put(b"Name"),
        Kind::Method { args } => print_method(out, *args),
        Kind::Alias { target, .. } => print_alias(out, target, window),
        Kind::Device => out.put(b"Device"),
        Kind::Processor => out.put(b"Processor"),
        Kind::PowerResource => out.put(b"PowerResource"),
        Kind::ThermalZone => out.put(b"ThermalZone"),
        Kind::Mutex => out.put(b"Mutex"),
        Kind::Event => out.put(b"Event"),
        Kind::Region => out.put(b"Region"),
        Kind::DataRegion => out.put(b"DataRegion"),
        Kind::Field => out.put(b"Field"),
        Kind::BufferField => out.put(b"BufferField"),
    }
}

/// That no declaration of a path is sure.
fn print_maybe<W: Write>(out: &mut Out<'_, W>, sure: bool)
    ensures { Prints W.contents out.old out.new (maybe_text sure) }
{
    if !sure {
        out.put(b" Maybe");
    }
}

/// That a path has several declarations.
fn print_times<W: Write>(out: &mut Out<'_, W>, times: usize)
    ensures { Prints W.contents out.old out.new (times_text times) }
{
    if times > 1 {
        out.put(b" Times ");
        print_decimal(out, times as u64);
    }
}

/// What marks a row that isn't of one sure declaration.
fn print_marks<W: Write>(out: &mut Out<'_, W>, sure: bool, times: usize)
    ensures { Prints W.contents out.old out.new (maybe_text sure ++ times_text times) }
{
    print_maybe(out, sure);
    print_times(out, times);
}

/// What a row says of its path.
fn print_said<W: Write>(out: &mut Out<'_, W>, row: &Row<'_>, window: &mut [Seg])
    requires room { 1 ≤ length window.old }
    ensures text { Prints W.contents out.old out.new
        (word " " ++ kind_text row.now.1.kind ++ (maybe_text row.now.1.sure ++ times_text row.now.1.times)) }
    ensures long { length window.new ≡ length window.old }
{
    out.put(b" ");
    print_kind(out, &row.kind(), window);
    print_marks(out, row.is_sure(), row.times());
}

/// A path with its kind and its marks.
fn print_marked<W: Write>(out: &mut Out<'_, W>, row: &Row<'_>, window: &mut [Seg])
    requires room { 1 ≤ length window.old }
    ensures text { Prints W.contents out.old out.new (marked_text row.now) }
    ensures long { length window.new ≡ length window.old }
{
    print_path(out, &row.path(), window);
    print_said(out, row, window);
}

/// The line of a path with its kind.
pub(crate) fn print_row<W: Write>(out: &mut Out<'_, W>, row: &Row<'_>, window: &mut [Seg])
    requires room { 1 ≤ length window.old }
    ensures text { Prints W.contents out.old out.new (row_line row.now) }
    ensures long { length window.new ≡ length window.old }
{
    print_indent(out, 1);
    print_marked(out, row, window);
    out.put(b"\n");
}

/// The line above the rows.
fn print_count<W: Write>(out: &mut Out<'_, W>, count: usize)
    ensures { Prints W.contents out.old out.new (line 0 (word "Namespace " ++ decimal count)) }
{
    out.put(b"Namespace ");
    print_decimal(out, count as u64);
    out.put(b"\n");
}

/// The lines of rows whose paths may be of any depth.
fn print_others<W: Write>(out: &mut Out<'_, W>, rows: Rows<'_>, window: &mut [Seg])
    requires { 1 ≤ length window.old }
    ensures { Prints W.contents out.old out.new (flat_map row_line rows.entry) }
{
    let mut left = rows;
    'rows: while let Some(row) = left.next() {
        print_row(out, &row, window);
    }
}

/// The lines of a row and of those behind it. They stand apart, so that no other set pays for the window.
#[cold]
#[inline(never)]
fn print_deep<W: Write>(out: &mut Out<'_, W>, row: &Row<'_>, others: Rows<'_>)
    ensures { Prints W.contents out.old out.new (flat_map row_line (row.now ∷ others.entry)) }
{
    let mut window = [Seg::default(); WINDOW];
    print_row(out, row, &mut window);
    print_others(out, others, &mut window);
}

/// Whether the path of a row, or an Alias's target, has more than so many segments.
pub(crate) fn is_deep(row: &Row<'_>, most: usize) -> bool {
    let kind = row.kind();
    let target = match kind.target() {
        None => 0,
        Some(target) => target.depth(),
    };
    row.path().depth().max(target) > most
}

/// The lines of rows.
fn print_lines<W: Write>(out: &mut Out<'_, W>, rows: Rows<'_>)
    ensures { Prints W.contents out.old out.new (flat_map row_line rows.entry) }
{
    let mut window = [Seg::default(); SMALL_WINDOW];
    let mut left = rows;
    'rows: while let Some(row) = left.next() {
        if is_deep(&row, SMALL_WINDOW) {
            return print_deep(out, &row, left);
        }
        print_row(out, &row, &mut window);
    }
}

/// The namespace: how many paths are declared, and a line for each, in the order of the paths.
pub fn print_rows<W: Write>(out: &mut Out<'_, W>, space: &Space)
    ensures { Prints W.contents out.old out.new (namespace_text (map.entries space.now.declarations)) }
{
    let count = space.row_count();
    print_count(out, count);
    print_lines(out, space.in_order());
}

/// The namespace of tables, by the texts of its rows, if they are printed already.
pub(crate) fn print_set_rows<W: Write>(out: &mut Out<'_, W>, tables: Tables<'_, '_>)
    ensures { Prints W.contents out.old out.new
        (namespace_text (map.entries tables.entry.set.now.space.declarations)) }
{
    let space = &tables.set.space;
    if tables.rows.is_empty() {
        return print_rows(out, space);
    }
    print_count(out, space.row_count());
    print_texts(out, tables.rows);
}

/// Texts, one behind the other.
fn print_texts<W: Write>(out: &mut Out<'_, W>, texts: &[Vec<u8>])
    ensures { Prints W.contents out.old out.new (flat_map (λ t. t.items) texts.now) }
{
    for text in texts {
        out.put(text.as_slice());
    }
}

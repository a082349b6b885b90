//! Values of rows, methods and bodies, with their texts.
ghost use Rattle.std.specs.Prelude.{◌≡◌, ◌++◌, length, IfOk, IfErr, OnOk};
ghost use Rattle.std.specs.FinMap as map;
ghost use Rattle.aml_text.specs.Rows.{path_text};
ghost use Rattle.aml_set.specs.Methods.{method_in, methods_in};
ghost use Rattle.acpidis_c.specs.States.{IsNoMemory};
ghost use Rattle.acpidis_c.specs.Contents.{AreValues, arguments_of, kind_number, target_text, row_text, row_value};
ghost use Rattle.acpidis_c.specs.Contents.{method_text, method_value, kept_text, kept_value, body_number, body_offset};

use crate::code::{Ended, Fault};
use crate::contents::{BodyValue, MethodValue, RowValue, Values};
use aml_names::{CodeFault, Seg};
use aml_set::Method;
use aml_space::{Kind, Row, Space, SpacePath};
use asl_text::print_segments;
use std::alloc::Global;
use std::io::Write;
use text_writer::{Out, Print, write_text_in};

/// How many bytes of a path wait to be written.
const ROOM: usize = 64;

/// A path that is printed.
#[derive(Drop)]
struct PathText<'a> {
    segs: &'a [Seg],
}

impl Print for PathText<'_> {
    ghost text = { λ path. path_text path.segs.now };

    #[tactic(auto, using(text_writer::proofs::PrintLaws::straight), unfolding(aml_text::specs::Rows::path_text))]
    fn print<W: Write>(&self, out: &mut Out<'_, W>) {
        out.put(b"\\");
        print_segments(out, self.segs);
    }
}

/// Puts the text of a path behind others.
fn put_path(texts: &mut Vec<u8>, segs: &[Seg]) -> Ended
    ensures put { OnOk result (texts.new.items ≡ texts.old.items ++ path_text segs.now) }
    ensures stops { IfErr result IsNoMemory }
{
    match write_text_in(texts, &PathText { segs }, &mut [0; ROOM]) {
        Ok(()) => Ok(()),
        Err(_) => Err(Fault::NoMemory),
    }
}

/// Puts the text of the path that an Alias leads to behind others.
fn put_target(alloc: Global, texts: &mut Vec<u8>, kind: &Kind<SpacePath<'_>>) -> Ended
    ensures put { OnOk result (texts.new.items ≡ texts.old.items ++ target_text kind.now) }
    ensures stops { IfErr result IsNoMemory }
{
    match kind {
        Kind::Alias { target, .. } => {
            let path = target.to_path(alloc)?;
            put_path(texts, path.segs())
        }
        _ => Ok(()),
    }
}

/// The number of a kind.
fn number_of(kind: &Kind<SpacePath<'_>>) -> u32
    ensures { result ≡ kind_number kind.now }
{
    match kind {
        Kind::Scope => 0,
        Kind::Name => 1,
        Kind::Method { .. } => 2,
        Kind::Alias { .. } => 3,
        Kind::Device => 4,
        Kind::Processor => 5,
        Kind::PowerResource => 6,
        Kind::ThermalZone => 7,
        Kind::Mutex => 8,
        Kind::Event => 9,
        Kind::Region => 10,
        Kind::DataRegion => 11,
        Kind::Field => 12,
        Kind::BufferField => 13,
    }
}

/// The number of arguments of a method, and 0 of another kind.
fn arguments_of(kind: &Kind<SpacePath<'_>>) -> u32
    ensures { result ≡ arguments_of kind.now }
{
    match kind {
        Kind::Method { args } => *args as u32,
        _ => 0,
    }
}

/// The value of a row, whose texts are put behind others.
fn row_value(alloc: Global, texts: &mut Vec<u8>, row: &Row<'_>) -> Result<RowValue, Fault>
    ensures value { IfOk result (λ value. value ≡ row_value (length texts.old.items) row.now) }
    ensures put { OnOk result (texts.new.items ≡ texts.old.items ++ row_text row.now) }
    ensures stops { IfErr result IsNoMemory }
{
    let at = texts.len();
    let path = row.path().to_path(alloc)?;
    put_path(texts, path.segs())?;
    let target = texts.len();
    let kind = row.kind();
    put_target(alloc, texts, &kind)?;
    Ok(RowValue {
        at,
        path: target - at,
        target: texts.len() - target,
        times: row.times(),
        kind: number_of(&kind),
        arguments: arguments_of(&kind),
        maybe: if row.is_sure() { 0 } else { 1 },
    })
}

/// The rows of a namespace.
pub(crate) fn rows_of(alloc: Global, space: &Space) -> Result<Values<RowValue>, Fault>
    ensures rows { IfOk result (AreValues row_text row_value (map.entries space.now.declarations)) }
    ensures stops { IfErr result IsNoMemory }
{
    let mut items = Vec::new(alloc);
    let mut texts = Vec::new(alloc);
    let mut walk = space.in_order();
    'rows: while let Some(row) = walk.next() {
        items.push(row_value(alloc, &mut texts, &row)?)?;
    }
    Ok(Values { items, texts })
}

/// The value of a method of a space, whose path is put behind others.
fn method_value(
    alloc: Global,
    texts: &mut Vec<u8>,
    space: &Space,
    method: &Method,
) -> Result<MethodValue, Fault>
    ensures value { IfOk result (λ value.
        value ≡ method_value (length texts.old.items) (method_in space.now method.now)) }
    ensures put { OnOk result (texts.new.items ≡ texts.old.items ++ method_text (method_in space.now method.now)) }
    ensures stops { IfErr result IsNoMemory }
{
    let at = texts.len();
    let path = space.path(method.path).to_path(alloc)?;
    put_path(texts, path.segs())?;
    Ok(MethodValue {
        at,
        path: texts.len() - at,
        table: method.table,
        start: method.start,
        length: method.len,
        flags: method.flags as u32,
    })
}

/// Methods of a space in their order.
pub(crate) fn methods_of(
    alloc: Global,
    space: &Space,
    methods: &[Method],
) -> Result<Values<MethodValue>, Fault>
    ensures methods { IfOk result (AreValues method_text method_value (methods_in space.now methods.now)) }
    ensures stops { IfErr result IsNoMemory }
{
    let mut items = Vec::new(alloc);
    let mut texts = Vec::new(alloc);
    for method in methods {
        items.push(method_value(alloc, &mut texts, space, method)?)?;
    }
    Ok(Values { items, texts })
}

/// The number of a fault of AML.
fn number_of_fault(fault: &CodeFault) -> u32
    ensures { result ≡ body_number fault.now }
{
    match fault {
        CodeFault::Truncated { .. } => 1,
        CodeFault::PkgBits { .. } => 2,
        CodeFault::PkgPast { .. } => 3,
        CodeFault::BadName { .. } => 4,
        CodeFault::UnknownOp { .. } => 5,
        CodeFault::NotHere { .. } => 6,
        CodeFault::StrayElse { .. } => 7,
        CodeFault::UnknownName { .. } => 8,
        CodeFault::EmptyName { .. } => 9,
        CodeFault::NestedMethod { .. } => 10,
        CodeFault::NestedScope { .. } => 11,
        CodeFault::ModuleCode { .. } => 12,
        CodeFault::BadCount { .. } => 13,
        CodeFault::TooDeep { .. } => 14,
        CodeFault::NoMemory => 15,
    }
}

/// The byte that a fault of AML is about.
fn offset_of_fault(fault: &CodeFault) -> u32
    ensures { result ≡ body_offset fault.now }
{
    match fault {
        CodeFault::Truncated { at } => *at,
        CodeFault::PkgBits { at } => *at,
        CodeFault::PkgPast { at } => *at,
        CodeFault::BadName { at } => *at,
        CodeFault::UnknownOp { at } => *at,
        CodeFault::NotHere { at } => *at,
        CodeFault::StrayElse { at } => *at,
        CodeFault::UnknownName { at } => *at,
        CodeFault::EmptyName { at } => *at,
        CodeFault::NestedMethod { at } => *at,
        CodeFault::NestedScope { at } => *at,
        CodeFault::ModuleCode { at } => *at,
        CodeFault::BadCount { at } => *at,
        CodeFault::TooDeep { at } => *at,
        CodeFault::NoMemory => 0,
    }
}

/// The value of a body by its lines or its fault. The lines are put behind others.
fn body_value(texts: &mut Vec<u8>, body: &Result<Vec<u8>, CodeFault>) -> Result<BodyValue, Fault>
    ensures value { IfOk result (λ value. value ≡ kept_value (length texts.old.items) body.now) }
    ensures put { OnOk result (texts.new.items ≡ texts.old.items ++ kept_text body.now) }
    ensures stops { IfErr result IsNoMemory }
{
    let at = texts.len();
    match body {
        Ok(lines) => {
            texts.extend_from_slice(lines.as_slice())?;
            Ok(BodyValue {
                at,
                length: lines.len(),
                fault: 0,
                offset: 0,
            })
        }
        Err(fault) => Ok(BodyValue {
            at,
            length: 0,
            fault: number_of_fault(fault),
            offset: offset_of_fault(fault),
        }),
    }
}

/// Bodies by their lines or their faults.
pub(crate) fn bodies_of(
    alloc: Global,
    bodies: &[Result<Vec<u8>, CodeFault>],
) -> Result<Values<BodyValue>, Fault>
    ensures bodies { IfOk result (AreValues kept_text kept_value bodies.now) }
    ensures stops { IfErr result IsNoMemory }
{
    let mut items = Vec::new(alloc);
    let mut texts = Vec::new(alloc);
    for body in bodies {
        items.push(body_value(&mut texts, body)?)?;
    }
    Ok(Values { items, texts })
}

//! The bytes of a tree.
ghost use Rattle.std.specs.Prelude.{◌≡◌, ◌+◌, ◌-◌, ◌≤◌, ◌++◌, length, take, drop, replicate, flat_map, OnOk, IfOk};
ghost use Rattle.aml_names.specs.Names.{form_bytes, spelling};
ghost use Rattle.aml_code.specs.Packages.{little, width_len, package_bytes};
ghost use Rattle.aml_code.specs.View.{node_view, nodes_view, part_view, parts_view, tail_view, field_view, fields_view};
ghost use Rattle.aml_code.specs.View.{link_view};
ghost use Rattle.aml_code.specs.Tree.{opcode_bytes, slice_of, encoding, encodings, part_encoding, parts_encoding};
ghost use Rattle.aml_code.specs.Tree.{tail_encoding, field_encoding, fields_encoding, link_encoding};

use crate::packages::PkgWidth;
use crate::tree::{Field, Link, Node, Part, Tail};
use aml_names::{Name, NameForm, NoMemory, Seg};
use std::alloc::Global;

pub(crate) fn push_little2(n: u16, out: &mut Vec<u8>) -> Result<(), NoMemory>
    ensures { OnOk result (out.new.items ≡ out.old.items ++ little 2 n) }
{
    out.extend_from_slice(&n.to_le_bytes())
}

pub(crate) fn push_little4(n: u32, out: &mut Vec<u8>) -> Result<(), NoMemory>
    ensures { OnOk result (out.new.items ≡ out.old.items ++ little 4 n) }
{
    out.extend_from_slice(&n.to_le_bytes())
}

pub(crate) fn push_little8(n: u64, out: &mut Vec<u8>) -> Result<(), NoMemory>
    ensures { OnOk result (out.new.items ≡ out.old.items ++ little 8 n) }
{
    out.extend_from_slice(&n.to_le_bytes())
}

/// The bytes of a package length, with zeros behind them up to four.
fn length_bytes(width: PkgWidth, n: usize) -> [u8; 4]
    ensures { take (width_len width) result ≡ package_bytes width n }
{
    let high = n / 16;
    match width {
        PkgWidth::One => [(n % 64) as u8, 0, 0, 0],
        PkgWidth::Two => [64 + (n % 16) as u8, (high % 256) as u8, 0, 0],
        PkgWidth::Three => [
            128 + (n % 16) as u8,
            (high % 256) as u8,
            (high / 256 % 256) as u8,
            0,
        ],
        PkgWidth::Four => [
            192 + (n % 16) as u8,
            (high % 256) as u8,
            (high / 256 % 256) as u8,
            (high / 256 / 256 % 256) as u8,
        ],
    }
}

fn push_length(width: PkgWidth, n: usize, out: &mut Vec<u8>) -> Result<(), NoMemory>
    ensures { OnOk result (out.new.items ≡ out.old.items ++ package_bytes width n) }
{
    let len = width.bytes() as usize;
    out.extend_from_slice(&length_bytes(width, n)[..len])
}

/// Leaves room for a package length at the end, and says where.
pub(crate) fn open_package(width: PkgWidth, out: &mut Vec<u8>) -> Result<usize, NoMemory>
    ensures room { OnOk result (out.new.items ≡ out.old.items ++ replicate (width_len width) 0) }
    ensures at { IfOk result (λ at. at ≡ length out.old.items) }
{
    let at = out.len();
    out.resize(at + width.bytes() as usize, 0)?;
    Ok(at)
}

/// Writes the package length into the room that was left for it at `at`: it covers all that stands from there on.
pub(crate) fn close_package(width: PkgWidth, at: usize, out: &mut Vec<u8>)
    requires { at + width_len width ≤ length out.old.items }
    ensures { out.new.items ≡ take at out.old.items ++
        (package_bytes width (length out.old.items - at) ++ drop (at + width_len width) out.old.items) }
{
    let len = width.bytes() as usize;
    let n = out.len() - at;
    out[at..at + len].copy_from_slice(&length_bytes(width, n)[..len]);
}

fn encode_segs(segs: &[Seg], out: &mut Vec<u8>) -> Result<(), NoMemory>
    ensures { OnOk result (out.new.items ≡ out.old.items ++ flat_map (λ s. s.0) segs.now) }
{
    for seg in segs {
        out.extend_from_slice(&seg.0)?;
    }
    Ok(())
}

fn encode_form(form: NameForm, count: usize, out: &mut Vec<u8>) -> Result<(), NoMemory>
    ensures { OnOk result (out.new.items ≡ out.old.items ++ form_bytes form count) }
{
    match form {
        NameForm::Null => out.push(0x00)?,
        NameForm::One => {}
        NameForm::Dual => out.push(0x2E)?,
        NameForm::Multi => {
            out.push(0x2F)?;
            out.push((count % 256) as u8)?;
        }
    }
    Ok(())
}

pub(crate) fn encode_name(name: &Name, out: &mut Vec<u8>) -> Result<(), NoMemory>
    ensures { OnOk result (out.new.items ≡ out.old.items ++ spelling name.now) }
{
    if name.root {
        out.push(0x5C)?;
    }
    out.resize(out.len() + name.ups as usize, 0x5E)?;
    encode_form(name.form, name.segs.len(), out)?;
    encode_segs(name.segs.as_slice(), out)
}

pub(crate) fn encode_opcode(opcode: u16, out: &mut Vec<u8>) -> Result<(), NoMemory>
    ensures { OnOk result (out.new.items ≡ out.old.items ++ opcode_bytes opcode) }
{
    if opcode >= 256 {
        out.push((opcode / 256) as u8)?;
    }
    out.push((opcode % 256) as u8)?;
    Ok(())
}

/// So many bytes of the code from an offset on, as far as the code has them.
pub fn slice(code: &[u8], start: u32, len: u32) -> &[u8]
    ensures { result.now ≡ slice_of code.now start len }
{
    let start = (start as usize).min(code.len());
    let behind = &code[start..];
    let len = (len as usize).min(behind.len());
    &behind[..len]
}

#[cycle(encode)]
fn encode_node(code: &[u8], node: &Node, out: &mut Vec<u8>) -> Result<(), NoMemory>
    ensures { OnOk result (out.new.items ≡ out.old.items ++ encoding code.now (node_view node.now)) }
{
    match node {
        Node::Nothing => {
            out.push(0x00)?;
            Ok(())
        }
        Node::Named { name, args } => {
            encode_name(name, out)?;
            encode_nodes(code, args.as_slice(), out)
        }
        Node::Op {
            opcode,
            width,
            parts,
            tail,
        } => {
            encode_opcode(*opcode, out)?;
            match width {
                None => {
                    encode_parts(code, parts.as_slice(), out)?;
                    encode_tail(code, tail, out)
                }
                Some(width) => {
                    let at = open_package(*width, out)?;
                    encode_parts(code, parts.as_slice(), out)?;
                    encode_tail(code, tail, out)?;
                    close_package(*width, at, out);
                    Ok(())
                }
            }
        }
    }
}

#[cycle(encode)]
fn encode_nodes(code: &[u8], nodes: &[Node], out: &mut Vec<u8>) -> Result<(), NoMemory>
    ensures { OnOk result (out.new.items ≡ out.old.items ++ encodings code.now (nodes_view nodes.now)) }
{
    for node in nodes {
        encode_node(code, node, out)?;
    }
    Ok(())
}

#[cycle(encode)]
fn encode_parts(code: &[u8], parts: &[Part], out: &mut Vec<u8>) -> Result<(), NoMemory>
    ensures { OnOk result (out.new.items ≡ out.old.items ++ parts_encoding code.now (parts_view parts.now)) }
{
    for part in parts {
        encode_part(code, part, out)?;
    }
    Ok(())
}

#[cycle(encode)]
fn encode_part(code: &[u8], part: &Part, out: &mut Vec<u8>) -> Result<(), NoMemory>
    ensures { OnOk result (out.new.items ≡ out.old.items ++ part_encoding code.now (part_view part.now)) }
{
    match part {
        Part::Child(node) => encode_node(code, node, out),
        Part::Label(name) => encode_name(name, out),
        Part::Byte(n) => {
            out.push(*n)?;
            Ok(())
        }
        Part::Word(n) => push_little2(*n, out),
        Part::Dword(n) => push_little4(*n, out),
        Part::Qword(n) => push_little8(*n, out),
        Part::Text(bytes) => {
            out.extend_from_slice(bytes.as_slice())?;
            out.push(0x00)?;
            Ok(())
        }
    }
}

#[cycle(encode)]
fn encode_tail(code: &[u8], tail: &Tail, out: &mut Vec<u8>) -> Result<(), NoMemory>
    ensures { OnOk result (out.new.items ≡ out.old.items ++ tail_encoding code.now (tail_view tail.now)) }
{
    match tail {
        Tail::Empty => Ok(()),
        Tail::Terms(nodes) => encode_nodes(code, nodes.as_slice(), out),
        Tail::Bytes(bytes) => out.extend_from_slice(bytes.as_slice()),
        Tail::Elements(nodes) => encode_nodes(code, nodes.as_slice(), out),
        Tail::Fields(fields) => encode_fields(code, fields.as_slice(), out),
        Tail::Body { start, len } => out.extend_from_slice(slice(code, *start, *len)),
    }
}

#[cycle(encode)]
fn encode_fields(code: &[u8], fields: &[Field], out: &mut Vec<u8>) -> Result<(), NoMemory>
    ensures { OnOk result (out.new.items ≡ out.old.items ++ fields_encoding code.now (fields_view fields.now)) }
{
    for field in fields {
        encode_field(code, field, out)?;
    }
    Ok(())
}

#[cycle(encode)]
pub(crate) fn encode_field(code: &[u8], field: &Field, out: &mut Vec<u8>) -> Result<(), NoMemory>
    ensures { OnOk result (out.new.items ≡ out.old.items ++ field_encoding code.now (field_view field.now)) }
{
    match field {
        Field::NamedUnit { seg, width, bits } => {
            out.extend_from_slice(&seg.0)?;
            push_length(*width, *bits as usize, out)
        }
        Field::Reserved { width, bits } => {
            out.push(0x00)?;
            push_length(*width, *bits as usize, out)
        }
        Field::Access(access, attribute) => out.extend_from_slice(&[0x01, *access, *attribute]),
        Field::Connection(link) => {
            out.push(0x02)?;
            encode_link(code, link, out)
        }
        Field::Extended(access, attribute, length) => {
            out.extend_from_slice(&[0x03, *access, *attribute, *length])
        }
    }
}

#[cycle(encode)]
fn encode_link(code: &[u8], link: &Link, out: &mut Vec<u8>) -> Result<(), NoMemory>
    ensures { OnOk result (out.new.items ≡ out.old.items ++ link_encoding code.now (link_view link.now)) }
{
    match link {
        Link::Target(name) => encode_name(name, out),
        Link::Buffer(node) => encode_node(code, node, out),
    }
}

/// The bytes of these terms, one after the other, with each package length in its own width. A method's body that
/// wasn't read is the span of `code` that it names, as far as that lies inside `code`.
///
/// A number that has no room, as a length in a width that is too small, keeps its low bits: of terms with the shape of
/// AML there is none.
pub fn encode_terms(alloc: Global, code: &[u8], terms: &[Node]) -> Result<Vec<u8>, NoMemory>
    ensures { IfOk result (λ bytes. bytes.items ≡ encodings code.now (nodes_view terms.now)) }
{
    let mut out = Vec::new(alloc);
    encode_nodes(code, terms, &mut out)?;
    Ok(out)
}

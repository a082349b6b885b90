//! Prints who calls what in the tables of a folder. Each line is a call: the method that has it, the path that it
//! calls, and how many arguments it gives. docs/library.md says how to build it.
#![tactic(auto)]

use acpi_folder::{DiskFolder, gather};
use acpi_tables::Dump;
use acpidis::{Options, Refusal, disassemble};
use aml_code::{Name, Node, Part, PartKind, Path, Tail, listed_row};
use aml_pool::FreeGate;
use aml_space::{Kind, Space};
use aml_text::{Body, Listing};
use anyhow::{Context, Result};
use std::alloc::{AllocError, Global};
use std::env;
use std::fmt::Write;
use std::sync::Wait;
use std::thread::Threads;

fn main(rt: HostRuntime) -> Result<()> {
    let folder = env::args(&rt)?.nth(1).context("no folder is named")?;
    let dumps = gather(rt.alloc(), &mut DiskFolder::new(&rt, folder.as_str()))?;
    let text = calls_in(&rt, rt.alloc(), &dumps)?;
    print!(rt; "{text}")?;
    Ok(())
}

/// The calls in a set of tables, whose bodies are read by 4 workers.
fn calls_in<R: Threads + Wait + Sync>(
    rt: &R,
    alloc: Global,
    dumps: &[Dump],
) -> Result<String, Refusal> {
    let options = Options {
        any_sum: false,
        any_run: false,
        unknown_zero: false,
        externals: Vec::new(alloc),
    };
    let listing = disassemble(rt, alloc, dumps, options, 4, &FreeGate)?;
    Ok(calls_of(alloc, &listing)?)
}

/// The calls of all methods, in the order of the text. A raw body has none.
fn calls_of(alloc: Global, listing: &Listing<'_>) -> Result<String, AllocError> {
    let mut text = String::new(alloc);
    for (method, body) in listing.loaded.methods.iter().zip(listing.bodies.iter()) {
        let space = &listing.loaded.space;
        let path = space.path(method.path).to_path(alloc)?;
        let caller = Caller {
            alloc,
            space,
            path: &path,
        };
        if let Body::Tree(nodes) = body {
            caller.push_nodes(&mut text, nodes.as_slice(), true)?;
        }
    }
    Ok(text)
}

/// A method, and the namespace in which its body is read.
#[derive(Clone, Copy)]
struct Caller<'a> {
    alloc: Global,
    space: &'a Space,
    path: &'a Path,
}

impl Caller<'_> {
    /// Adds the calls in these nodes. Only where values stand may a name be a call.
    #[cycle(calls)]
    fn push_nodes(&self, out: &mut String, nodes: &[Node], values: bool) -> Result<(), AllocError> {
        for node in nodes {
            self.push_node(out, node, values)?;
        }
        Ok(())
    }

    #[cycle(calls)]
    fn push_node(&self, out: &mut String, node: &Node, value: bool) -> Result<(), AllocError> {
        match node {
            Node::Nothing => Ok(()),
            Node::Named { name, args } => {
                if value {
                    self.push_name(out, name, args.len())?;
                }
                self.push_nodes(out, args.as_slice(), true)
            }
            Node::Op {
                opcode,
                parts,
                tail,
                ..
            } => {
                let kinds = listed_row(*opcode).map(|row| row.parts).unwrap_or(&[]);
                for (kind, part) in kinds.iter().zip(parts.iter()) {
                    if let Part::Child(node) = part {
                        self.push_node(out, node, *kind == PartKind::Term)?;
                    }
                }
                match tail {
                    Tail::Terms(nodes) => self.push_nodes(out, nodes.as_slice(), true),
                    Tail::Elements(nodes) => self.push_nodes(out, nodes.as_slice(), false),
                    _ => Ok(()),
                }
            }
        }
    }

    /// Adds a name with so many arguments where it is a call: where it has any, or means a method.
    fn push_name(&self, out: &mut String, name: &Name, count: usize) -> Result<(), AllocError> {
        let Some(path) = self.space.find(self.alloc, self.path, name)? else {
            return Ok(());
        };
        if count > 0 || self.is_method(&path)? {
            writeln!(out, "{} {path} {count}", self.path)?;
        }
        Ok(())
    }

    fn is_method(&self, path: &Path) -> Result<bool, AllocError> {
        let kind = match self.space.kind(path) {
            Some(Kind::Alias { target, .. }) => {
                let path = target.to_path(self.alloc)?;
                return Ok(matches!(self.space.kind(&path), Some(Kind::Method { .. })));
            }
            kind => kind,
        };
        Ok(matches!(kind, Some(Kind::Method { .. })))
    }
}

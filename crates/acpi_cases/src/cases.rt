//! The answers to rows. A set and a namespace grow row by row until the next one begins.
ghost use Rattle.std.specs.Prelude.{◌≤◌, length};

use crate::lines::{Line, bytes_of, number_of, split_line};
use crate::spaces::Names;
use crate::{code, files, members, sets, spaces, tables};
use acpi_tables::Dump;
use aml_names::Locals;
use aml_space::Space;
use std::alloc::{AllocError, Global};

/// The greatest number of bytes of a row.
const LIMIT: usize = 16_777_216;

/// What the rows so far have made.
#[derive(Drop)]
pub struct Cases {
    alloc: Global,
    dumps: Vec<Dump>,
    space: Space,
    locals: Locals,
}

impl Cases {
    pub fn new(alloc: Global) -> Result<Cases, AllocError> {
        Ok(Cases {
            alloc,
            dumps: Vec::new(alloc),
            space: Space::new(alloc)?,
            locals: Locals::new(alloc),
        })
    }

    /// What a row is read as. A row of no kind, as a heading, has no answer.
    pub fn push_answer(&mut self, out: &mut String, row: &str) -> Result<(), AllocError> {
        let (line, text) = split_line(row);
        let bytes = bytes_of(self.alloc, text)?;
        if bytes.len() > LIMIT {
            return Ok(());
        }
        self.push_code(out, line, &bytes)
    }

    /// What code is read as.
    fn push_code(
        &mut self,
        out: &mut String,
        line: Line<'_>,
        bytes: &[u8],
    ) -> Result<(), AllocError>
        requires { length bytes.now ≤ 16777216 }
    {
        let alloc = self.alloc;
        match line.kind {
            "body" => code::push_body(alloc, out, line.words, bytes),
            "method" => self.names().push_body(out, line.words, bytes),
            "table" => code::push_table(alloc, out, bytes),
            "step" => code::push_step(alloc, out, line.words, bytes),
            "cuts" => code::push_cuts(alloc, out, bytes),
            "name" => code::push_name(alloc, out, bytes),
            "length" => code::push_length(out, bytes),
            "terms" => code::push_texts(alloc, out, line.words, bytes),
            "kept" => code::push_kept(alloc, out, bytes),
            _ => self.change_set(out, line, bytes),
        }
    }

    /// Changes the set.
    fn change_set(
        &mut self,
        out: &mut String,
        line: Line<'_>,
        bytes: &[u8],
    ) -> Result<(), AllocError> {
        let alloc = self.alloc;
        match line.kind {
            "set" => self.begin_set(),
            "dump" => sets::push_table(alloc, &mut self.dumps, line.words, bytes),
            "raw" => sets::push_dump(alloc, &mut self.dumps, line.words, bytes),
            "put" => sets::put_byte(&mut self.dumps, number_of(line.words), bytes),
            "add" => sets::add_bytes(&mut self.dumps, bytes),
            _ => self.push_set(out, line, bytes),
        }
    }

    /// What the set is read as.
    fn push_set(
        &mut self,
        out: &mut String,
        line: Line<'_>,
        bytes: &[u8],
    ) -> Result<(), AllocError> {
        let alloc = self.alloc;
        match line.kind {
            "order" => sets::push_order(alloc, out, line.words, &self.dumps),
            "orders" => sets::push_orders(alloc, out, &mut self.dumps, number_of(line.words)),
            _ => self.change_names(out, line, bytes),
        }
    }

    /// Changes the namespace, or says what it answers.
    fn change_names(
        &mut self,
        out: &mut String,
        line: Line<'_>,
        bytes: &[u8],
    ) -> Result<(), AllocError> {
        let alloc = self.alloc;
        match line.kind {
            "space" => self.begin_names(),
            "declare" | "again" | "maybe" => {
                spaces::push_declared(alloc, out, &mut self.space, line)
            }
            "external" | "given" | "local" => {
                spaces::add(alloc, &mut self.space, &mut self.locals, line)
            }
            "count" | "kind" | "counted" | "declared" | "is_local" | "scope" | "alias" => {
                self.names().push_known(out, line)
            }
            "locals" => spaces::push_locals(out, &self.locals),
            "rows" => spaces::push_rows(alloc, out, &self.space),
            "row_at" => { spaces::push_row_at(alloc, out, &self.space, number_of(line.words)) }
            "place" | "find" | "lead" | "search" | "arity" | "arity_unknown_zero" => {
                self.names().push_lead(out, line)
            }
            _ => push_table(alloc, out, line, bytes),
        }
    }

    /// No dump.
    fn begin_set(&mut self) -> Result<(), AllocError> {
        self.dumps.clear();
        Ok(())
    }

    /// The predefined names alone.
    fn begin_names(&mut self) -> Result<(), AllocError> {
        self.space = Space::new(self.alloc)?;
        self.locals = Locals::new(self.alloc);
        Ok(())
    }

    /// The namespace, and what a body has declared.
    fn names(&self) -> Names<'_> {
        Names {
            alloc: self.alloc,
            space: &self.space,
            locals: &self.locals,
        }
    }
}

/// What the readers of single tables and of other files give, and large namespaces.
fn push_table(
    alloc: Global,
    out: &mut String,
    line: Line<'_>,
    bytes: &[u8],
) -> Result<(), AllocError> {
    match line.kind {
        "xsdt" => tables::push_xsdt(alloc, out, bytes),
        "rsdt" => tables::push_rsdt(alloc, out, bytes),
        "madt" => tables::push_madt(alloc, out, bytes),
        "map" => files::push_map(alloc, out, line.words, bytes),
        "externals" => files::push_externals(alloc, out, bytes),
        "many_rows" | "many_counted" => {
            members::push_many(alloc, out, line.kind, number_of(line.words))
        }
        _ => Ok(()),
    }
}

//! Reads worked examples from standard input, one a line, and prints each, and below it what it is read as.
#![tactic(auto)]

mod cases;
mod code;
mod files;
mod lines;
mod members;
mod sets;
mod spaces;
mod tables;

use crate::cases::Cases;
use std::alloc::{AllocError, Global};
use std::fmt::Write;
use std::io;

fn main(rt: HostRuntime) -> io::Result<()> {
    let mut rows = Vec::new(rt.alloc());
    for row in rt.lines(rt.alloc()) {
        rows.push(row?)?;
    }
    let mut text = String::new(rt.alloc());
    push_text(rt.alloc(), &mut text, rows.as_slice())?;
    print!(rt; "{text}")
}

/// Each row, and below it what it is read as.
fn push_text(alloc: Global, out: &mut String, rows: &[String]) -> Result<(), AllocError> {
    let mut cases = Cases::new(alloc)?;
    push_rows(out, &mut cases, rows)
}

fn push_rows(out: &mut String, cases: &mut Cases, rows: &[String]) -> Result<(), AllocError> {
    for row in rows {
        push_row(out, cases, row)?;
    }
    Ok(())
}

fn push_row(out: &mut String, cases: &mut Cases, row: &str) -> Result<(), AllocError> {
    writeln!(out, "{row}")?;
    cases.push_answer(out, row)
}

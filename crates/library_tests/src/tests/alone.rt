//! What the caller alone answers, without a runtime, beside what workers answer.
use super::fixtures::{any_sum, codes, dsdt_of, status_of};
use acpidis::{print_fault, run_alone};
use aml_pool::FreeGate;
use std::alloc::{AllocError, Global};
use std::panic::Expect;
use std::sync::Wait;
use std::thread::Threads;

/// Whether the caller alone writes what workers write of a DSDT with this AML, with the same status and error lines.
fn writes_the_same<T: Threads + Wait + Sync>(
    threads: &T,
    alloc: Global,
    code: &[u8],
) -> Result<bool, AllocError> {
    let dumps = dsdt_of(alloc, code)?;
    let mut text = Vec::new(alloc);
    let mut lines = Vec::new(alloc);
    let status = status_of(threads, alloc, &dumps, 2, &FreeGate, &mut text, &mut lines);
    let mut own_text = Vec::new(alloc);
    let mut own_lines = Vec::new(alloc);
    let options = any_sum(alloc);
    let own_status = match run_alone(
        alloc,
        &dumps,
        &options,
        false,
        &mut own_text,
        &mut own_lines,
    ) {
        Ok(status) => status,
        Err(fault) => print_fault(&dumps, &fault, &mut own_lines),
    };
    Ok(
        own_status == status
            && own_text.as_slice() == text.as_slice()
            && own_lines.as_slice() == lines.as_slice(),
    )
}

#[test]
fn the_caller_alone_writes_what_workers_write(rt: HostRuntime) {
    for code in codes() {
        assert!(rt; matches!(writes_the_same(&rt, rt.alloc(), code), Ok(true)));
    }
    for code in [
        b"\x14\x0BFOO_\x00\xA4BBBB".as_slice(),
        b"\x14\x0BFOO_\x00",
        b"\x06FOO_BAR_",
    ] {
        assert!(rt; matches!(writes_the_same(&rt, rt.alloc(), code), Ok(true)));
    }
}

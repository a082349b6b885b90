//! Listings by several workers.
ghost use Rattle.std.specs.Prelude.{◌≤◌};

use super::fixtures::{OfListing, Want, Watch, dsdt_of, holds_of_listing, push_table, runs_behind};
use acpi_tables::Dump;
use aml_code::CodeFault;
use aml_pool::FreeGate;
use aml_text::{Body, Listing};
use std::alloc::{AllocError, Global};
use std::panic::Expect;
use std::sync::Wait;
use std::thread::Threads;

/// A DSDT of two methods and an SSDT of one. The first calls the third, and the second returns what no table has.
fn three_methods(alloc: Global) -> Result<Vec<Dump>, AllocError> {
    let code = b"\x14\x0EAAAA\x00\xA4BBBB\x01\x0A\x05\x14\x0BCCCC\x00\xA4DDDD";
    let mut dumps = Vec::new(alloc);
    push_table(alloc, &mut dumps, None, b"DSDT", code)?;
    push_table(alloc, &mut dumps, None, b"SSDT", b"\x14\x06BBBB\x02")?;
    Ok(dumps)
}

/// Whether that holds of the listing of three methods by so many workers.
pub fn holds_of_three<T: Threads + Wait + Sync, L: OfListing>(
    threads: &T,
    alloc: Global,
    workers: u32,
    asked: &L,
) -> Result<bool, Want>
    requires { (1 ≤ workers) × (workers ≤ 64) }
{
    let dumps = three_methods(alloc)?;
    holds_of_listing(threads, alloc, &dumps, workers, &FreeGate, asked)
}

/// That the bodies are those of the three methods: one term, a raw one, none.
pub struct ThreeBodies;

impl OfListing for ThreeBodies {
    fn holds(&self, _alloc: Global, listing: &mut Listing<'_>) -> Result<bool, Want> {
        let [
            Body::Tree(first),
            Body::Raw(CodeFault::UnknownName { at: 1 }),
            Body::Tree(last),
        ] = listing.bodies.as_slice()
        else {
            return Ok(false);
        };
        Ok(first.len() == 1 && last.is_empty())
    }
}

/// A DSDT of eight methods, each of which returns a constant.
fn eight_methods(alloc: Global) -> Result<Vec<Dump>, AllocError> {
    let mut code = Vec::new(alloc);
    for letter in b'A'..b'I' {
        code.extend_from_slice(&[0x14, 0x08, letter, b'_', b'_', b'_', 0, 0xA4, 0x01])?;
    }
    dsdt_of(alloc, &code)
}

/// That the lists of two workers who read eight bodies are what the gate kept.
impl OfListing for Watch {
    fn holds(&self, _alloc: Global, listing: &mut Listing<'_>) -> Result<bool, Want> {
        let [one, other] = listing.drawn.as_slice() else {
            return Ok(false);
        };
        let kept = self.has_list(0, one.as_slice()) && self.has_list(1, other.as_slice());
        Ok(kept && listing.bodies.len() == 8)
    }
}

/// Whether they are, where two workers read the eight methods behind this gate.
fn lists_are_calls<T: Threads + Wait + Sync>(
    threads: &T,
    alloc: Global,
    gate: &Watch,
) -> Result<bool, Want> {
    let dumps = eight_methods(alloc)?;
    holds_of_listing(threads, alloc, &dumps, 2, gate, gate)
}

/// The first of two calls waits for the second, which comes from another thread.
#[test]
fn two_workers_meet_in_the_gate(rt: HostRuntime) {
    let gate = Watch::new(rt.alloc(), 2, 8).expect(&rt, "no gate");
    assert!(rt; matches!(lists_are_calls(&rt, rt.alloc(), &gate), Ok(true)));
    assert!(rt; !gate.is_stuck());
}

/// While one worker is held, the other reads all other bodies. With a fixed cut it could not.
#[test]
fn a_held_worker_holds_up_no_other(rt: HostRuntime) {
    let gate = Watch::new(rt.alloc(), 8, 8).expect(&rt, "no gate");
    assert!(rt; matches!(lists_are_calls(&rt, rt.alloc(), &gate), Ok(true)));
    assert!(rt; !gate.is_stuck());
}

/// Whether each of eight numbers entered once.
fn enter_once(alloc: Global, gate: &Watch) -> Result<bool, AllocError> {
    let mut numbers = gate.numbers(alloc)?;
    numbers.sort_unstable();
    Ok(numbers.iter().copied().eq(0..8))
}

/// In a run too the first of two calls waits for the second, which comes from another thread, and each number enters
/// once.
#[test]
fn two_workers_meet_in_a_run(rt: HostRuntime) {
    let dumps = eight_methods(rt.alloc()).expect(&rt, "no dumps");
    let gate = Watch::new(rt.alloc(), 2, 8).expect(&rt, "no gate");
    assert!(rt; runs_behind(&rt, rt.alloc(), &dumps, &gate));
    assert!(rt; matches!(enter_once(rt.alloc(), &gate), Ok(true)));
    assert!(rt; !gate.is_stuck());
}

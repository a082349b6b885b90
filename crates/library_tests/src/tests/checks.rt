//! A check of a listing in which another body stands than the table's. No run makes such a listing.
ghost use Rattle.std.specs.Prelude.{◌≤◌, length};
ghost use Rattle.aml_set.specs.Code.{AreShort};
ghost use Rattle.aml_set.specs.Views.{codes_view};

use super::fixtures::{Bare, OfListing, Want, dsdt_of, holds_of_listing};
use acpi_tables::Dump;
use acpidis::{Checked, check, write_checks};
use aml_code::CodeFault;
use aml_names::Path;
use aml_parse::parse_body;
use aml_pool::FreeGate;
use aml_text::{Body, Listing};
use std::alloc::{AllocError, Global};
use std::panic::Expect;

/// The DSDT of a method that returns its first argument.
fn one_method(alloc: Global) -> Result<Vec<Dump>, AllocError> {
    let mut dumps = dsdt_of(alloc, b"\x14\x08FOO_\x01\xA4\x68")?;
    for dump in &mut dumps {
        dump.name.push_str("dsdt.dat")?;
    }
    Ok(dumps)
}

/// Its line once another body stands in its place.
const LINE: &[u8] = b"Check \"dsdt.dat\" Bytes 9 Methods 1 Raw 0 Differs\n";

/// Whether the checks of a listing are printed as that line.
fn has_line(alloc: Global, listing: &Listing<'_>, checks: &[Checked]) -> bool {
    let mut out = Vec::new(alloc);
    write_checks(&mut out, listing, checks).is_ok() && out.as_slice() == LINE
}

/// A body that returns the second argument.
fn other_body(alloc: Global) -> Result<Body, CodeFault> {
    let terms = parse_body(alloc, b"\xA4\x69", &Bare, &Path::root(alloc))?;
    Ok(Body::Tree(terms))
}

/// Whether one table of nine bytes and one method is checked, and isn't the same.
fn differs(checks: &[Checked]) -> bool {
    let [checked] = checks else {
        return false;
    };
    (checked.bytes, checked.methods, checked.raw, checked.same) == (9, 1, 0, false)
}

/// Whether the table of a listing differs from what was read.
fn is_other(alloc: Global, listing: &Listing<'_>) -> Result<bool, AllocError>
    requires { AreShort (codes_view listing.now.loaded.tables.items)
        × (length listing.now.loaded.methods.items ≤ 1048576) }
{
    let checks = check(alloc, listing)?;
    Ok(differs(&checks) && has_line(alloc, listing, &checks))
}

/// Puts a body in the place of the first.
fn exchange(bodies: &mut [Body], other: Body) {
    if let Some(first) = bodies.first_mut() {
        *first = other;
    }
}

/// That the table of a listing differs once another body stands in the place of its first.
struct Exchanged;

impl OfListing for Exchanged {
    fn holds(&self, alloc: Global, listing: &mut Listing<'_>) -> Result<bool, Want> {
        let Ok(other) = other_body(alloc) else {
            return Ok(false);
        };
        exchange(&mut listing.bodies, other);
        Ok(is_other(alloc, listing)?)
    }
}

#[test]
fn a_body_that_is_exchanged_differs(rt: HostRuntime) {
    let dumps = one_method(rt.alloc()).expect(&rt, "no dumps");
    let answer = holds_of_listing(&rt, rt.alloc(), &dumps, 1, &FreeGate, &Exchanged);
    assert!(rt; matches!(answer, Ok(true)));
}

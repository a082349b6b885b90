//! A dump as C gives it.
ghost use Rattle.std.specs.Prelude.{◌≡◌, IfOk, IfErr, take};
ghost use Rattle.acpidis_c.specs.Dumps.{IsDumpOf, RefusesDump};

use crate::code::Fault;
use acpi_tables::{Dump, MAX_DUMP_BYTES};
use std::alloc::Global;

/// One byte more of a dump is kept than a dump may have, so that a longer one is seen.
const KEPT_BYTES: usize = MAX_DUMP_BYTES + 1;

/// A dump of this name with these bytes, of which one more is kept than a dump may have.
pub(crate) fn dump_of(
    alloc: Global,
    name: &[u8],
    address: Option<u64>,
    bytes: &[u8],
) -> Result<Dump, Fault>
    ensures dump { IfOk result (IsDumpOf name.now address bytes.now) }
    ensures refused { IfErr result (RefusesDump name.now) }
{
    let Ok(name) = std::str::from_utf8(name) else {
        return Err(Fault::BadName);
    };
    Ok(Dump {
        name: String::from_str(alloc, name)?,
        address,
        bytes: Vec::from_slice(alloc, kept_of(bytes))?,
    })
}

/// The bytes of a dump that are kept.
fn kept_of(bytes: &[u8]) -> &[u8]
    ensures { result.now ≡ take 16777217 bytes.now }
{
    &bytes[..KEPT_BYTES.min(bytes.len())]
}

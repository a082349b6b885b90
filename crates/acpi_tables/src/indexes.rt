//! Dumps of a set by their indexes.
#![tactic(auto, using(crate::proofs::Places::parts))]

ghost use Rattle.std.specs.Prelude.{◌≡◌};
ghost use Rattle.acpi_tables.specs.Order.{bytes_of, name_of, has_signature, dump_at};

use crate::bytes::begins_with;
use crate::dump::Dump;

/// The bytes of the dump at this index, and none past the last.
#[tactic(auto, using(crate::proofs::Places::parts), unfolding(crate::specs::Order::bytes_of))]
pub fn bytes_of(dumps: &[Dump], index: usize) -> &[u8]
    ensures { result.now ≡ bytes_of dumps.now index }
{
    match dumps.get(index) {
        Some(dump) => &dump.bytes,
        None => &[],
    }
}

/// The name of the dump at this index, and an empty one past the last.
#[tactic(auto, using(crate::proofs::Places::parts), unfolding(crate::specs::Order::name_of))]
pub fn name_of(dumps: &[Dump], index: usize) -> &[u8]
    ensures { result.now ≡ name_of dumps.now index }
{
    match dumps.get(index) {
        Some(dump) => dump.name.as_bytes(),
        None => &[],
    }
}

/// Whether the dump at this index has this signature.
pub(crate) fn has_signature(dumps: &[Dump], index: usize, signature: &[u8]) -> bool
    ensures { result ≡ has_signature dumps.now signature.now index }
{
    begins_with(bytes_of(dumps, index), signature)
}

/// The index of the first dump that stood at this address.
pub fn dump_at(dumps: &[Dump], address: u64) -> Option<usize>
    ensures { result ≡ dump_at dumps.now address }
{
    dumps.iter().position(|dump| dump.stands_at(address))
}

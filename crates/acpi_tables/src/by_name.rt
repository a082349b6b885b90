//! The order of the definition blocks where no addresses are known, and the names of the files decide.
ghost use Rattle.std.specs.Prelude.{◌≡◌, ◌⊎◌, ◌<◌, ◌^◌, None, Err, codes, IfOk, IfErr, IfSome};
ghost use Rattle.std.specs.Prelude.{length, nat_eq, position, reverse, take, take_while};
ghost use Rattle.std.specs.Char.{is_ascii_digit};
ghost use Rattle.std.specs.List.{before_last};
ghost use Rattle.std.specs.Str.Parse.{digits_value};
ghost use Rattle.acpi_tables.specs.Order.{IsNamed, only_dsdt, indexes_with, name_of, rank_cmp, stem_of, ending_number};
ghost use Rattle.acpi_tables.specs.declared.faults.Bad.TheVariants.{NoMemory};

use crate::dump::Dump;
use crate::faults::{Bad, TableFault};
use crate::indexes::{has_signature, name_of};
use crate::order::Order;
use crate::signatures::{DSDT, SSDT};
use std::alloc::{AllocError, Global};
use std::cmp::Ordering;

/// How many of the digits that end a stem count.
const MAX_DIGITS: u8 = 9;

/// The order that the names give.
pub(crate) fn order_by_name(alloc: Global, dumps: &[Dump]) -> Result<Order, TableFault>
    ensures order { IfOk result (λ order. IsNamed dumps.now order.dsdt order.ssdts.items) }
    ensures refused { IfErr result (λ fault. (fault ≡ record { dump = None; bad = NoMemory }) ⊎
        (only_dsdt (indexes_with dumps.now (codes "DSDT")) ≡ Err fault)) }
{
    let dsdts = indexes_with(alloc, dumps, &DSDT)?;
    let dsdt = match dsdts.as_slice() {
        [] => return Err(TableFault::of_set(Bad::NoDsdt)),
        [dsdt] => *dsdt,
        [_, second, ..] => return Err(TableFault::of_dump(*second, Bad::TwoDsdts)),
    };
    let mut ssdts = indexes_with(alloc, dumps, &SSDT)?;
    ssdts.sort_unstable_by(|a, b| compare(dumps, *a, *b));
    Ok(Order { dsdt, ssdts })
}

/// The indexes of the dumps with this signature.
fn indexes_with(alloc: Global, dumps: &[Dump], signature: &[u8]) -> Result<Vec<usize>, AllocError>
    ensures { IfOk result (λ indexes. indexes.items ≡ indexes_with dumps.now signature.now) }
{
    (0..dumps.len())
        .filter(|index| has_signature(dumps, *index, signature))
        .collect(alloc)
}

/// Compares two dumps by the number that ends the stem of their name, then by name, then by index.
fn compare(dumps: &[Dump], a: usize, b: usize) -> Ordering
    ensures { result ≡ rank_cmp dumps.now a b }
{
    let (a_name, b_name) = (name_of(dumps, a), name_of(dumps, b));
    let by_number = ending_number(a_name).cmp(&ending_number(b_name));
    by_number.then(a_name.cmp(&b_name)).then(a.cmp(&b))
}

/// The decimal number that ends the stem of this name, of whose digits the last nine count.
fn ending_number(name: &[u8]) -> u32
    ensures { result ≡ ending_number name.now }
{
    ending_digits(stem_of(name), MAX_DIGITS)
}

/// The name up to its last dot, or all of it if there is none or it stands first.
fn stem_of(name: &[u8]) -> &[u8]
    ensures { result.now ≡ stem_of name.now }
{
    let stem = before_last_dot(name);
    if stem.is_empty() { name } else { stem }
}

/// What stands before the last dot, and nothing if there is none.
fn before_last_dot(name: &[u8]) -> &[u8]
    ensures { result.now ≡ before_last (λ c. nat_eq c 46) name.now }
{
    match after_last_dot(name) {
        Some(after) => &name[..name.len() - after - 1],
        None => &[],
    }
}

/// How many bytes stand after the last dot.
fn after_last_dot(name: &[u8]) -> Option<usize>
    ensures after { result ≡ position (λ c. nat_eq c 46) (reverse name.now) }
    ensures inside { IfSome result (λ after. after < length name.now) }
{
    name.iter().rev().position(|byte| *byte == b'.')
}

/// The number that the digits at the end of these bytes spell, of which at most this many count.
fn ending_digits(bytes: &[u8], count: u8) -> u32
    requires { count < 10 }
    ensures bound { result < 10 ^ count }
    ensures value { result
        ≡ digits_value 10 (reverse (take count (take_while is_ascii_digit (reverse bytes.now)))) }
{
    if count == 0 {
        return 0;
    }
    match bytes {
        [front @ .., digit @ b'0'..=b'9'] => u32::from(*digit - b'0')
            + 10 * ending_digits(front, count - 1),
        _ => 0,
    }
}

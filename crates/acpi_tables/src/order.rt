//! The order in which the definition blocks of a set of tables are loaded.
#![tactic(auto, using(crate::proofs::Places::inside))]

ghost use Rattle.std.specs.Prelude.{◌≡◌, ◌⊎◌, ◌<◌, ◌∷◌, ℕ, List, None, true, MatchBool, IfOk, IfErr, OnOk};
ghost use Rattle.acpi_tables.specs.declared.faults.Bad.TheVariants.{NoMemory};
ghost use Rattle.acpi_tables.specs.declared.faults.TableFault.{TableFault};

use crate::by_chain::order_by_chain;
use crate::by_name::order_by_name;
use crate::dump::{Dump, check_dump};
use crate::faults::{Bad, TableFault};
use std::alloc::Global;

/// The greatest number of dumps of a set.
pub const MAX_DUMPS: usize = 512;

/// The indexes of the dumps whose definition blocks are loaded: the DSDT first, and then the SSDTs in this order.
#[derive(Drop)]
pub struct Order {
    pub dsdt: usize,
    pub ssdts: Vec<usize>,
}

ghost use Rattle.acpi_tables.specs.Order.{AreTables, AreTaken, IsChained, IsNamed, IsOrder, Refuses};
ghost use Rattle.acpi_tables.specs.Order.{RefusesBytes, RefusesOrder, is_addressed};

/// The order of the definition blocks of these dumps.
///
/// Each dump is checked by itself first. `any_sum` takes any checksum.
///
/// Where no dump has an address, the DSDT is the only dump with its signature, and the SSDTs go by the decimal number
/// that ends the stem of their name, then by name as bytes, then by index. Where a dump has an address, the chain from
/// the RSDP over the XSDT, or the RSDT, and the FADT decides (ACPI 6.5, sections 5.2.5, 5.2.7, 5.2.8 and 5.2.9). Each
/// dump of the order is a table with its header.
///
/// # Errors
/// The first fault that is met, in this order: `Bad::TooManyTables` for more than 512 dumps; what the first dump that
/// isn't taken is refused for, with its index; why there is no order. What a fault says is true of the dump that it
/// names, and but for `Bad::NoMemory` there is no order then.
pub fn load_order(alloc: Global, dumps: &[Dump], any_sum: bool) -> Result<Order, TableFault>
    ensures order { IfOk result (λ order. IsOrder dumps.now any_sum order.dsdt order.ssdts.items) }
    ensures only { IfOk result (λ order. (dsdt : ℕ) (ssdts : List ℕ) → IsOrder dumps.now any_sum dsdt ssdts
        → (dsdt ≡ order.dsdt) × (ssdts ≡ order.ssdts.items)) }
    ensures sound { OnOk result ((fault : TableFault) → ¬ Refuses dumps.now any_sum fault) }
    ensures tables { IfOk result (λ order. AreTables dumps.now (order.dsdt ∷ order.ssdts.items)) }

    ensures refused { IfErr result (λ fault. (fault ≡ record { dump = None; bad = NoMemory }) ⊎
        Refuses dumps.now any_sum fault) }
    ensures none { IfErr result (λ fault. (fault ≡ record { dump = None; bad = NoMemory })
        ⊎ ((dsdt : ℕ) (ssdts : List ℕ) → ¬ IsOrder dumps.now any_sum dsdt ssdts)) }
{
    if dumps.len() > MAX_DUMPS {
        return Err(TableFault::of_set(Bad::TooManyTables));
    }
    check_dumps(dumps, any_sum)?;
    find_order(alloc, dumps)
}

/// The order of dumps that are all taken: the chain's where one has an address, and else the names'.
fn find_order(alloc: Global, dumps: &[Dump]) -> Result<Order, TableFault>
    requires { AreTaken dumps.now true }
    ensures blocks { IfOk result (λ order. MatchBool (is_addressed dumps.now)
        (IsChained dumps.now order.dsdt order.ssdts.items)
        (IsNamed dumps.now order.dsdt order.ssdts.items)) }
    ensures refused { IfErr result (λ fault. (fault ≡ record { dump = None; bad = NoMemory }) ⊎
        RefusesOrder dumps.now fault) }
{
    if is_addressed(dumps) {
        order_by_chain(alloc, dumps)
    } else {
        order_by_name(alloc, dumps)
    }
}

/// Whether each dump is taken by itself, and else the first that isn't.
fn check_dumps(dumps: &[Dump], any_sum: bool) -> Result<(), TableFault>
    ensures taken { OnOk result (AreTaken dumps.now any_sum) }
    ensures refused { IfErr result (RefusesBytes dumps.now any_sum) }
{
    for (index, dump) in dumps.iter().enumerate() {
        if let Err(bad) = check_dump(&dump.bytes, any_sum) {
            return Err(TableFault::of_dump(index, bad));
        }
    }
    Ok(())
}

/// Whether a dump has an address.
fn is_addressed(dumps: &[Dump]) -> bool
    ensures { result ≡ is_addressed dumps.now }
{
    dumps.iter().any(|dump| dump.address.is_some())
}

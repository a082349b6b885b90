//! The system description tables of ACPI, and the order in which their definition blocks are loaded.
#![tactic(auto)]

mod addresses;
mod by_chain;
mod by_name;
mod bytes;
mod dump;
mod fadt;
mod faults;
mod fields;
mod header;
mod indexes;
mod madt;
mod order;
mod rsdp;
mod signatures;

pub use addresses::{AddressWidth, Rsdt, Xsdt, address_bytes, address_count};
pub use bytes::{begins_with, little_endian, sum, u8_at, u32_at};
pub use dump::{Content, Dump, Kind, MAX_DUMP_BYTES, table_of};
pub use fadt::Fadt;
pub use faults::{Bad, TableFault};
pub use fields::{Base, MOST_FIELDS, RecordRow, TableField};
pub use header::{HEADER_LENGTH, Header, LENGTH_AT};
pub use indexes::{bytes_of, dump_at, name_of};
pub use madt::{MADT_CONTROLLER, MADT_FLAGS, MADT_RECORDS, Madt, MadtRecord, MadtView};
pub use order::{MAX_DUMPS, Order, load_order};
pub use rsdp::{Rsdp, Wide};

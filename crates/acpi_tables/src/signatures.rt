//! The signatures by which tables are told apart (ACPI 6.5, sections 5.2.5.3 and 5.2.6).

/// Of the Root System Description Pointer.
pub(crate) const RSDP: [u8; 8] = *b"RSD PTR ";

/// Of the Root System Description Table.
pub(crate) const RSDT: [u8; 4] = *b"RSDT";

/// Of the Extended System Description Table.
pub(crate) const XSDT: [u8; 4] = *b"XSDT";

/// Of the Fixed ACPI Description Table (FADT).
pub(crate) const FACP: [u8; 4] = *b"FACP";

/// Of the Firmware ACPI Control Structure.
pub(crate) const FACS: [u8; 4] = *b"FACS";

/// Of the Multiple APIC Description Table (MADT).
pub(crate) const APIC: [u8; 4] = *b"APIC";

/// Of the Differentiated System Description Table.
pub(crate) const DSDT: [u8; 4] = *b"DSDT";

/// Of a Secondary System Description Table.
pub(crate) const SSDT: [u8; 4] = *b"SSDT";

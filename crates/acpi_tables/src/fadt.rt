//! The table that names the DSDT (ACPI 6.5, section 5.2.9).
#![tactic(auto, using(crate::proofs::Values::values))]

ghost use Rattle.std.specs.Prelude.{◌≡◌, ◌↔◌, ◌<◌, ◌≤◌, length, map, IsOk, IfOk, IfErr, OnOk};
ghost use Rattle.acpi_tables.specs.declared.faults.Bad.TheVariants.{FadtShort};

use crate::bytes::{u8_at, u16_at, u32_at, u64_at};
use crate::faults::Bad;

/// Where Flags ends, the last field of the FADT of ACPI 1.0.
const FLAGS_END: usize = 116;

/// Where DSDT stands.
pub(crate) const DSDT_AT: usize = 40;

/// Where X_DSDT stands, and where it ends.
pub(crate) const X_DSDT_AT: usize = 140;

pub(crate) const X_DSDT_END: usize = 148;

/// Fields of a Fixed ACPI Description Table, each named as in the standard, shortened.
#[derive(Clone, Copy)]
pub struct Fadt {
    /// The physical address of the FACS, at offset 36.
    pub firmware_ctrl: u32,
    /// The physical address of the DSDT, at offset 40.
    pub dsdt: u32,
    /// Preferred_PM_Profile, at offset 45.
    pub profile: u8,
    /// SCI_INT, at offset 46.
    pub sci_int: u16,
    /// SMI_CMD, at offset 48.
    pub smi_cmd: u32,
    /// ACPI_ENABLE, at offset 52.
    pub acpi_enable: u8,
    /// ACPI_DISABLE, at offset 53.
    pub acpi_disable: u8,
    /// PM1a_EVT_BLK, at offset 56.
    pub pm1a_evt: u32,
    /// PM1a_CNT_BLK, at offset 64.
    pub pm1a_cnt: u32,
    /// PM_TMR_BLK, at offset 76.
    pub pm_tmr: u32,
    /// GPE0_BLK, at offset 80.
    pub gpe0: u32,
    /// GPE0_BLK_LEN in bytes, at offset 92.
    pub gpe0_len: u8,
    /// IAPC_BOOT_ARCH, at offset 109.
    pub boot_arch: u16,
    /// Flags, at offset 112.
    pub flags: u32,
    /// X_FIRMWARE_CTRL, at offset 132, in a table of at least 140 bytes.
    pub x_firmware_ctrl: Option<u64>,
    /// X_DSDT, at offset 140, in a table of at least 148 bytes.
    pub x_dsdt: Option<u64>,
}

impl Fadt {
    ghost use Rattle.acpi_tables.specs.Bytes.{value_in};
    ghost use Rattle.acpi_tables.specs.Fadt.{fadt_fields, fadt_values};

    /// The fields of a FADT. `table` is the first Length bytes of a dump.
    ///
    /// # Errors
    /// `Bad::FadtShort` below 116 bytes.
    pub fn read(table: &[u8]) -> Result<Fadt, Bad>
        ensures holds { IsOk result ↔ (116 ≤ length table.now) }
        ensures short { IfErr result (λ bad. bad ≡ FadtShort) }
        ensures fields { IfOk result (λ fadt. fadt_values fadt ≡ map (value_in table.now) fadt_fields) }
    {
        Fadt::check(table)?;
        Ok(Fadt {
            firmware_ctrl: u32_at(table, 36),
            dsdt: u32_at(table, DSDT_AT),
            profile: u8_at(table, 45),
            sci_int: u16_at(table, 46),
            smi_cmd: u32_at(table, 48),
            acpi_enable: u8_at(table, 52),
            acpi_disable: u8_at(table, 53),
            pm1a_evt: u32_at(table, 56),
            pm1a_cnt: u32_at(table, 64),
            pm_tmr: u32_at(table, 76),
            gpe0: u32_at(table, 80),
            gpe0_len: u8_at(table, 92),
            boot_arch: u16_at(table, 109),
            flags: u32_at(table, 112),
            x_firmware_ctrl: address_at(table, 132),
            x_dsdt: address_at(table, X_DSDT_AT),
        })
    }

    /// Whether `read` takes this table, and else why not.
    pub(crate) fn check(table: &[u8]) -> Result<(), Bad>
        ensures holds { OnOk result (116 ≤ length table.now) }
        ensures short { IfErr result (λ bad. (bad ≡ FadtShort) × (length table.now < 116)) }
    {
        if table.len() < FLAGS_END {
            return Err(Bad::FadtShort);
        }
        Ok(())
    }
}

ghost use Rattle.std.specs.Prelude.{Some, None, ◌+◌, nat_le, if◌then◌else◌};
ghost use Rattle.acpi_tables.specs.Bytes.{number_at};

/// The address at this offset, if the table reaches to its end.
fn address_at(table: &[u8], at: usize) -> Option<u64>
    requires { at ≤ 140 }
    ensures { result ≡ (if nat_le (at + 8) (length table.now) then Some (number_at table.now at 8) else None) }
{
    if table.len() < at + 8 {
        return None;
    }
    Some(u64_at(table, at))
}

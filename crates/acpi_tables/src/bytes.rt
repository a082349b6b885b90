//! Numbers at an offset of a table, and the sum of its bytes.
#![tactic(auto, using(crate::proofs::Numbers::numbers), unfolding(crate::specs::Bytes::number_at))]

ghost use Rattle.std.specs.Prelude.{◌≡◌, ◌↔◌, ◌+◌, ◌<◌, ◌≤◌, length, IsTrue};
ghost use Rattle.acpi_tables.specs.Bytes.{little_endian, bytes_at, number_at, begins_with, checksum, HasLength};

/// The sum of the bytes modulo 256. It is 0 for a table whose checksum is right (ACPI 6.5, section 5.2.6).
pub fn sum(bytes: &[u8]) -> u8
    ensures { result ≡ checksum bytes.now }
{
    let mut total: u8 = 0;
    for byte in bytes {
        total = total.wrapping_add(*byte);
    }
    total
}

/// The number that these bytes spell, the lowest byte first.
pub fn little_endian(bytes: &[u8]) -> u64
    requires { length bytes.now ≤ 8 }
    ensures { result ≡ little_endian bytes.now }
{
    let mut array = [0; 8];
    array[..bytes.len()].copy_from_slice(bytes);
    u64::from_le_bytes(array)
}

/// The bytes at this offset.
pub(crate) fn array_at<const N: usize>(bytes: &[u8], at: usize) -> [u8; N]
    requires { at + N ≤ length bytes.now }
    ensures { result ≡ bytes_at bytes.now at N }
{
    let mut array = [0; N];
    array.copy_from_slice(&bytes[at..at + N]);
    array
}

pub(crate) fn u16_at(bytes: &[u8], at: usize) -> u16
    requires { at + 2 ≤ length bytes.now }
    ensures { result ≡ number_at bytes.now at 2 }
{
    u16::from_le_bytes(array_at(bytes, at))
}

/// The u32 at this offset, the lowest byte first.
pub fn u32_at(bytes: &[u8], at: usize) -> u32
    requires { at + 4 ≤ length bytes.now }
    ensures { result ≡ number_at bytes.now at 4 }
{
    u32::from_le_bytes(array_at(bytes, at))
}

pub(crate) fn u64_at(bytes: &[u8], at: usize) -> u64
    requires { at + 8 ≤ length bytes.now }
    ensures { result ≡ number_at bytes.now at 8 }
{
    u64::from_le_bytes(array_at(bytes, at))
}

/// The byte at this offset.
pub fn u8_at(bytes: &[u8], at: usize) -> u8
    requires { at < length bytes.now }
    ensures { result ≡ number_at bytes.now at 1 }
{
    bytes[at]
}

/// Whether the bytes begin with this word, as a signature.
#[tactic(auto, unfolding(crate::specs::Bytes::begins_with))]
pub fn begins_with(bytes: &[u8], word: &[u8]) -> bool
    ensures { result ≡ begins_with bytes.now word.now }
{
    bytes.starts_with(word)
}

/// Whether the u32 at this offset is a length of at least so many bytes, which the bytes have.
pub(crate) fn has_length(bytes: &[u8], at: usize, least: usize) -> bool
    requires { at + 4 ≤ least }
    ensures { IsTrue result ↔ HasLength bytes.now at least }
{
    if bytes.len() < least {
        return false;
    }
    let length = u32_at(bytes, at) as usize;
    least <= length && length <= bytes.len()
}

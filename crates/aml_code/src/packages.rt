//! Package lengths (ACPI 6.5, 20.2.4).
ghost use Rattle.std.specs.Prelude.{◌≡◌, ◌≢◌, ◌+◌, ◌-◌, ◌*◌, ◌<◌, ◌≤◌, ◌^◌, ◌++◌, ℕ, List, length, IfOk, IfErr};
ghost use Rattle.aml_names.specs.NameReading.{Gives};
ghost use Rattle.aml_code.specs.Packages.{width_len, width_of, package_bytes, FitsWidth, little_at};
ghost use Rattle.aml_code.specs.Packages.{value_at, length_at, span_at, front_at};
ghost use Rattle.aml_code.specs.Faults.{IsLengthFault};

use aml_names::{CodeFault, byte_of, offset_of};

/// How many bytes spell a package length. More than needed are allowed, and are kept.
#[derive(Clone, Copy)]
pub enum PkgWidth {
    One,
    Two,
    Three,
    Four,
}

impl PkgWidth {
    /// The number of bytes, 1 to 4.
    pub fn bytes(self) -> u32
        ensures { result ≡ width_len self }
    {
        match self {
            PkgWidth::One => 1,
            PkgWidth::Two => 2,
            PkgWidth::Three => 3,
            PkgWidth::Four => 4,
        }
    }

    /// The width with so many bytes after the lead byte.
    fn with_following(bytes: u8) -> PkgWidth
        ensures { result ≡ width_of bytes }
    {
        match bytes {
            0 => PkgWidth::One,
            1 => PkgWidth::Two,
            2 => PkgWidth::Three,
            _ => PkgWidth::Four,
        }
    }
}

/// A number of so many bytes, the lowest first. `Truncated` at the span's end where there are fewer.
#[tactic(auto, unfolding(crate::specs::Packages::little_at))]
pub fn little_of(width: u8, end: u32, bytes: &[u8]) -> Result<(u64, &[u8]), CodeFault>
    requires { width ≤ 8 }
    ensures exact { Gives (λ x. (x.0, x.1.now)) result (little_at width end bytes.now) }
    ensures below { IfOk result (λ x. x.0 < 256 ^ width) }
    ensures takes_none { IfErr result (λ e. e ≢ CodeFault.NoMemory) }
{
    if width == 0 {
        return Ok((0, bytes));
    }
    let (low, rest) = byte_of(end, bytes)?;
    let (high, rest) = little_of(width - 1, end, rest)?;
    Ok((low as u64 + 256 * high, rest))
}

/// The length that a lead byte at offset `at` begins.
#[tactic(auto, unfolding(crate::specs::Packages::value_at))]
fn value_of(
    at: u32,
    lead: u8,
    end: u32,
    bytes: &[u8],
) -> Result<((PkgWidth, u32), &[u8]), CodeFault>
    ensures exact { Gives (λ x. (x.0, x.1.now)) result (value_at at lead end bytes.now) }
    ensures takes_none { IfErr result (λ e. e ≢ CodeFault.NoMemory) }
{
    let following = lead / 64;
    if following == 0 {
        return Ok(((PkgWidth::One, lead as u32), bytes));
    }
    if lead / 16 % 4 > 0 {
        return Err(CodeFault::PkgBits { at });
    }
    let (high, rest) = little_of(following, end, bytes)?;
    let value = (lead % 16) as u32 + 16 * high as u32;
    Ok(((PkgWidth::with_following(following), value), rest))
}

/// A package length: its width and its value. `PkgBits` at the lead byte where one of the bits that have to be clear is
/// set, `Truncated` at the span's end where a byte is missing.
#[tactic(auto, unfolding(crate::specs::Packages::length_at))]
pub fn length_of(end: u32, bytes: &[u8]) -> Result<((PkgWidth, u32), &[u8]), CodeFault>
    ensures exact { Gives (λ x. (x.0, x.1.now)) result (length_at end bytes.now) }
    ensures takes_none { IfErr result (λ e. e ≢ CodeFault.NoMemory) }
{
    let (lead, rest) = byte_of(end, bytes)?;
    value_of(offset_of(end, bytes), lead, end, rest)
}

/// A package: the width of its length, the bytes that it covers after the length, and those behind it. Faults as of
/// `length_of`, and `PkgPast` at the lead byte where the length is less than its own bytes or leads past the end.
#[tactic(auto, unfolding(crate::specs::Packages::span_at))]
pub fn span_of(end: u32, bytes: &[u8]) -> Result<(PkgWidth, &[u8], &[u8]), CodeFault>
    ensures { Gives (λ x. (x.0, x.1.now, x.2.now)) result (span_at end bytes.now) }
{
    let ((width, value), rest) = length_of(end, bytes)?;
    let own = width.bytes();
    if value < own {
        return Err(CodeFault::PkgPast {
            at: offset_of(end, bytes),
        });
    }
    let len = (value - own) as usize;
    if rest.len() < len {
        return Err(CodeFault::PkgPast {
            at: offset_of(end, bytes),
        });
    }
    let (inside, behind) = rest.split_at(len);
    Ok((width, inside, behind))
}

/// The package length at the front of the bytes.
#[tactic(auto, unfolding(crate::specs::Packages::front_at))]
fn front_of(bytes: &[u8]) -> Result<(PkgWidth, u32), CodeFault>
    requires { length bytes.now < 2 ^ 32 }
    ensures exact { Gives (λ x. x) result (front_at bytes.now) }
    ensures takes_none { IfErr result (λ e. e ≢ CodeFault.NoMemory) }
{
    let (front, _) = length_of(bytes.len() as u32, bytes)?;
    Ok(front)
}

/// The package length at the front of the bytes: its width and its value, which isn't compared with what follows.
/// `PkgBits` at 0 and `Truncated` at the end of the bytes, as `length_of` says.
pub fn read_pkg(bytes: &[u8]) -> Result<(PkgWidth, u32), CodeFault>
    requires { length bytes.now < 2 ^ 32 }
    // What is read is spelled at the front.
    ensures sound { IfOk result (λ x. FitsWidth x.0 x.1 ×
        ((rest : List ℕ) × (bytes.now ≡ package_bytes x.0 x.1 ++ rest))) }
    // Nothing else is spelled there.
    ensures one { IfOk result (λ x. (w : PkgWidth) (v : ℕ) (rest : List ℕ) → FitsWidth w v →
        bytes.now ≡ package_bytes w v ++ rest → (w ≡ x.0) × (v ≡ x.1)) }
    // What is refused is no length.
    ensures complete { IfErr result (λ e. (w : PkgWidth) (v : ℕ) (rest : List ℕ) → FitsWidth w v →
        bytes.now ≡ package_bytes w v ++ rest → ⊥) }
    // A fault is true of its offset.
    ensures placed { IfErr result (IsLengthFault bytes.now) }
    // Which fault it is.
    ensures exact { Gives (λ x. x) result (front_at bytes.now) }
{
    front_of(bytes)
}

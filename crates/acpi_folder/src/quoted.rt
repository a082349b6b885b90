//! A file's name as the program prints it.
ghost use Rattle.std.specs.Prelude.{◌≡◌, flat_map};
ghost use Rattle.std.specs.Fmt.{WritesOnOk};
ghost use Rattle.acpi_folder.specs.Quoted.{escaped, is_plain, quoted_byte};

use std::fmt;
use std::fmt::Write;

/// Displays as a text in double quotes, where each byte that isn't printable ASCII, and `"` and `\`, is `\x` and its
/// two hexadecimal digits.
#[derive(Clone, Copy)]
pub struct Quoted<'a>(pub &'a str);

impl fmt::Display for Quoted<'_> {
    ghost use Rattle.std.specs.Prelude.{Some};
    ghost use Rattle.acpi_folder.specs.Quoted.{quoted};

    ghost output = { λ name. Some (quoted name.0.now) };

    fn fmt<W: fmt::Write>(&self, f: &mut fmt::Formatter<W>) -> fmt::Result {
        f.write_char('"')?;
        write_bytes(f, self.0.as_bytes())?;
        f.write_char('"')
    }
}

/// The bytes between the quotes.
fn write_bytes<W: fmt::Write>(f: &mut fmt::Formatter<W>, bytes: &[u8]) -> fmt::Result
    ensures { WritesOnOk W.write_str_gives f.old result (flat_map quoted_byte bytes.now) f.new }
{
    for byte in bytes {
        write_byte(f, *byte)?;
    }
    Ok(())
}

/// Whether a byte stands for itself.
fn is_plain(byte: u8) -> bool
    ensures { result ≡ is_plain byte }
{
    (b' '..=b'~').contains(&byte) && byte != b'"' && byte != b'\\'
}

/// A byte as itself, or by its digits.
#[tactic(auto, using(std::proofs::lemmas::Str::encode_ascii), unfolding(crate::specs::Quoted::quoted_byte))]
fn write_byte<W: fmt::Write>(f: &mut fmt::Formatter<W>, byte: u8) -> fmt::Result
    ensures { WritesOnOk W.write_str_gives f.old result (quoted_byte byte) f.new }
{
    if is_plain(byte) {
        f.write_char(char::from(byte))
    } else {
        write_escaped(f, byte)
    }
}

/// `\x` and the two hexadecimal digits of a byte.
fn write_escaped<W: fmt::Write>(f: &mut fmt::Formatter<W>, byte: u8) -> fmt::Result
    ensures { WritesOnOk W.write_str_gives f.old result (escaped byte) f.new }
{
    write!(f, "\\x{:X}{:X}", byte / 16, byte % 16)
}

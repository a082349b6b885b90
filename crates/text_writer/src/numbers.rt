//! Numbers in hexadecimal and decimal digits, and bytes between quotes.
ghost use Rattle.std.specs.Prelude.{◌≡◌, decimal};
ghost use Rattle.text_writer.specs.Prints.{Prints, hex2, hex4, hex8, hex16, is_plain, quoted_byte, quoted};

use crate::output::Out;
use itoa::Buffer;
use std::io::Write;

const DIGITS: [u8; 16] = *b"0123456789ABCDEF";

/// A byte in two hexadecimal digits.
#[tactic(auto, unfolding(crate::specs::Prints::hex2, crate::specs::Prints::hex_digit))]
#[inline]
pub fn print_hex2<W: Write>(out: &mut Out<'_, W>, n: u8)
    ensures { Prints W.contents out.old out.new (hex2 n) }
{
    out.put_two(DIGITS[(n / 16) as usize], DIGITS[(n % 16) as usize]);
}

#[tactic(auto, using(crate::proofs::PrintLaws::straight), unfolding(crate::specs::Prints::hex4))]
#[inline]
pub fn print_hex4<W: Write>(out: &mut Out<'_, W>, n: u16)
    ensures { Prints W.contents out.old out.new (hex4 n) }
{
    print_hex2(out, (n / 256) as u8);
    print_hex2(out, (n % 256) as u8);
}

#[tactic(auto, using(crate::proofs::PrintLaws::straight), unfolding(crate::specs::Prints::hex8))]
pub fn print_hex8<W: Write>(out: &mut Out<'_, W>, n: u32)
    ensures { Prints W.contents out.old out.new (hex8 n) }
{
    print_hex4(out, (n / 65536) as u16);
    print_hex4(out, (n % 65536) as u16);
}

#[tactic(auto, using(crate::proofs::PrintLaws::straight), unfolding(crate::specs::Prints::hex16))]
pub fn print_hex16<W: Write>(out: &mut Out<'_, W>, n: u64)
    ensures { Prints W.contents out.old out.new (hex16 n) }
{
    print_hex8(out, (n / 4294967296) as u32);
    print_hex8(out, (n % 4294967296) as u32);
}

/// A number in decimal digits, most often one.
#[tactic(auto, using(std::proofs::lemmas::Fmt::decimal_digit))]
pub fn print_decimal<W: Write>(out: &mut Out<'_, W>, n: u64)
    ensures { Prints W.contents out.old out.new (decimal n) }
{
    if n < 10 {
        out.put(&[b'0' + n as u8]);
    } else {
        print_digits(out, n);
    }
}

#[inline(never)]
fn print_digits<W: Write>(out: &mut Out<'_, W>, n: u64)
    ensures { Prints W.contents out.old out.new (decimal n) }
{
    let mut buffer = Buffer::new();
    out.put(buffer.format(n).as_bytes());
}

#[tactic(auto, unfolding(crate::specs::Prints::is_plain))]
fn is_plain_byte(byte: u8) -> bool
    ensures { result ≡ is_plain byte }
{
    0x20 <= byte && byte <= 0x7E && byte != b'"' && byte != b'\\'
}

#[tactic(auto, using(crate::proofs::PrintLaws::straight), unfolding(crate::specs::Prints::quoted_byte))]
fn print_quoted_byte<W: Write>(out: &mut Out<'_, W>, byte: u8)
    ensures { Prints W.contents out.old out.new (quoted_byte byte) }
{
    if is_plain_byte(byte) {
        out.put(&[byte]);
    } else {
        out.put(b"\\x");
        print_hex2(out, byte);
    }
}

/// Bytes between quotes; any but printable ASCII, the quote and the backslash is `\x` and two digits.
#[tactic(auto, using(crate::proofs::PrintLaws::straight), unfolding(crate::specs::Prints::quoted))]
pub fn print_quoted<W: Write>(out: &mut Out<'_, W>, bytes: &[u8])
    ensures { Prints W.contents out.old out.new (quoted bytes.now) }
{
    out.put(b"\"");
    for byte in bytes {
        print_quoted_byte(out, *byte);
    }
    out.put(b"\"");
}

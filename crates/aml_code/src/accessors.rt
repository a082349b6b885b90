//! The parts of an opcode that say what it declares.
ghost use Rattle.std.specs.Prelude.{◌≡◌, None};
ghost use Rattle.std.specs.Option.{option_copied};
ghost use Rattle.aml_code.specs.View.{parts_view};
ghost use Rattle.aml_code.specs.Lawful.{last_label, last_byte};

use crate::tree::Part;
use aml_names::Name;

/// The last part that is a name: what most declarations declare.
pub fn last_name(parts: &[Part]) -> Option<&Name>
    ensures { option_copied result ≡ last_label None (parts_view parts.now) }
{
    let mut found = None;
    for part in parts {
        if let Part::Label(name) = part {
            found = Some(name);
        }
    }
    found
}

/// The last part that is a byte: of a Method, its flags.
pub fn last_byte(parts: &[Part]) -> Option<u8>
    ensures { result ≡ last_byte None (parts_view parts.now) }
{
    let mut found = None;
    for part in parts {
        if let Part::Byte(byte) = part {
            found = Some(*byte);
        }
    }
    found
}

//! What an opcode by its row does to the namespace, and which of its parts are TermArgs.
ghost use Rattle.std.specs.Prelude.{◌≡◌};
ghost use Rattle.aml_load.specs.Declaring.{is_argument, kinds_in};
ghost use Rattle.aml_load.specs.Loading.{declares_by, kind_of};
ghost use Rattle.aml_load.specs.Walking.{IsPlain};

use aml_code::{Group, Object, PartKind, listed_row};
use aml_space::{Kind, PathId};

/// The kind of an object.
pub fn kind_of(object: Object) -> Kind<PathId>
    ensures { IsPlain result (kind_of object) }
{
    match object {
        Object::Name => Kind::Name,
        Object::Mutex => Kind::Mutex,
        Object::Event => Kind::Event,
        Object::Region => Kind::Region,
        Object::DataRegion => Kind::DataRegion,
        Object::BufferField => Kind::BufferField,
        Object::Device => Kind::Device,
        Object::Processor => Kind::Processor,
        Object::PowerResource => Kind::PowerResource,
        Object::ThermalZone => Kind::ThermalZone,
    }
}

/// Whether a part of this kind is a TermArg.
pub fn is_argument(kind: PartKind) -> bool
    ensures { result ≡ is_argument kind }
{
    kind == PartKind::Term
}

/// The kinds of the parts of an opcode.
pub fn kinds_of(opcode: u16) -> &'static [PartKind]
    ensures { result.now ≡ kinds_in opcode }
{
    match listed_row(opcode) {
        None => &[],
        Some(row) => row.parts,
    }
}

/// Whether a group is that of declarations.
pub fn declares_by(group: Group) -> bool
    ensures { result ≡ declares_by group }
{
    match group {
        Group::Declaration => true,
        _ => false,
    }
}

//! The table of opcodes.
ghost use Rattle.std.specs.Prelude.{◌≡◌, ◌+◌, ◌%◌, ◌<◌, cond, get_or, map, nat_lt, slice_get};
ghost use Rattle.std.specs.Option.{option_copied, option_map};
ghost use Rattle.aml_code.specs.Opcodes.{rows, row_of, row_view};
ghost use Rattle.aml_code.specs.declared.table.TheConstants.{INDEX};

use crate::rows::{Group, Object, OpRow, PartKind, Place, Role, TailKind};

macro_rules! tail {
    (Empty) => {
        None
    };
    ($tail:ident) => {
        Some(TailKind::$tail)
    };
}

macro_rules! rows {
    ($(
        $opcode:literal $mnemonic:literal $group:ident $place:ident [$($part:ident)*] $tail:ident
            $role:ident $(($object:ident))?;
    )*) => {
        [$(OpRow {
            opcode: $opcode,
            mnemonic: $mnemonic,
            group: Group::$group,
            place: Place::$place,
            parts: &[$(PartKind::$part),*],
            tail: tail!($tail),
            role: Role::$role $((Object::$object))?,
        }),*]
    };
}

/// The opcodes in the order of the standard's sections (ACPI 6.5, 20.2.3 to 20.2.6), each with its mnemonic, its group,
/// where it may stand, its parts, its tail, and what it does to the namespace.
static ROWS: [OpRow; 113] = rows! {
    // Data objects (20.2.3).
    0x0A   "Byte"                   Value       Data        [Byte]                           Empty    Other;
    0x0B   "Word"                   Value       Data        [Word]                           Empty    Other;
    0x0C   "Dword"                  Value       Data        [Dword]                          Empty    Other;
    0x0E   "Qword"                  Value       Data        [Qword]                          Empty    Other;
    0x0D   "Text"                   Value       Data        [Text]                           Empty    Other;
    0x00   "Zero"                   Value       Data        []                               Empty    Other;
    0x01   "One"                    Value       Data        []                               Empty    Other;
    0xFF   "Ones"                   Value       Data        []                               Empty    Other;
    0x5B30 "Revision"               Value       Data        []                               Empty    Other;
    0x11   "Buffer"                 Value       Data        [Term]                           Bytes    Other;
    0x12   "Package"                Value       Data        [Byte]                           Elements Other;
    0x13   "VarPackage"             Value       Data        [Term]                           Elements Other;
    // Namespace modifier objects (20.2.5.1).
    0x06   "Alias"                  Declaration Declaration [Name Name]                      Empty    Alias;
    0x08   "Name"                   Declaration Declaration [Name Data]                      Empty    Declares(Name);
    0x10   "Scope"                  Declaration Scope       [ScopeName]                      Terms    Scope;
    // Named objects (20.2.5.2).
    0x5B87 "BankField"              Declaration Declaration [Name Name Term Byte]            Fields   Fields;
    0x8D   "CreateBitField"         Declaration Declaration [Term Term Name]                 Empty    Declares(BufferField);
    0x8C   "CreateByteField"        Declaration Declaration [Term Term Name]                 Empty    Declares(BufferField);
    0x8A   "CreateDWordField"       Declaration Declaration [Term Term Name]                 Empty    Declares(BufferField);
    0x5B13 "CreateField"            Declaration Declaration [Term Term Term Name]            Empty    Declares(BufferField);
    0x8F   "CreateQWordField"       Declaration Declaration [Term Term Name]                 Empty    Declares(BufferField);
    0x8B   "CreateWordField"        Declaration Declaration [Term Term Name]                 Empty    Declares(BufferField);
    0x5B88 "DataRegion"             Declaration Declaration [Name Term Term Term]            Empty    Declares(DataRegion);
    0x5B82 "Device"                 Declaration Scope       [Name]                           Terms    Declares(Device);
    0x5B02 "Event"                  Declaration Declaration [Name]                           Empty    Declares(Event);
    0x15   "External"               Declaration External    [Name Byte Count]                Empty    External;
    0x5B81 "Field"                  Declaration Declaration [Name Byte]                      Fields   Fields;
    0x5B86 "IndexField"             Declaration Declaration [Name Name Byte]                 Fields   Fields;
    0x14   "Method"                 Declaration Method      [Name Byte]                      Body     Method;
    0x5B01 "Mutex"                  Declaration Declaration [Name Byte]                      Empty    Declares(Mutex);
    0x5B80 "OperationRegion"        Declaration Declaration [Name Byte Term Term]            Empty    Declares(Region);
    0x5B84 "PowerResource"          Declaration Scope       [Name Byte Word]                 Terms    Declares(PowerResource);
    0x5B83 "Processor"              Declaration Scope       [Name Byte Dword Byte]           Terms    Declares(Processor);
    0x5B85 "ThermalZone"            Declaration Scope       [Name]                           Terms    Declares(ThermalZone);
    // Statement opcodes (20.2.5.3).
    0xA5   "Break"                  Statement   Statement   []                               Empty    Other;
    0xCC   "BreakPoint"             Statement   Statement   []                               Empty    Other;
    0x9F   "Continue"               Statement   Statement   []                               Empty    Other;
    0x5B32 "Fatal"                  Statement   Statement   [Byte Dword Term]                Empty    Other;
    0xA0   "If"                     Statement   If          [Term]                           Terms    Guard;
    0xA1   "Else"                   Statement   Else        []                               Terms    Other;
    0xA3   "Noop"                   Statement   Statement   []                               Empty    Other;
    0x86   "Notify"                 Statement   Statement   [Target Term]                    Empty    Other;
    0x5B27 "Release"                Statement   Statement   [Target]                         Empty    Other;
    0x5B26 "Reset"                  Statement   Statement   [Target]                         Empty    Other;
    0xA4   "Return"                 Statement   Return      [Term]                           Empty    Other;
    0x5B24 "Signal"                 Statement   Statement   [Target]                         Empty    Other;
    0x5B22 "Sleep"                  Statement   Statement   [Term]                           Empty    Other;
    0x5B21 "Stall"                  Statement   Statement   [Term]                           Empty    Other;
    0x5B2A "Unload"                 Statement   Statement   [Target]                         Empty    Other;
    0xA2   "While"                  Statement   Statement   [Term]                           Terms    Other;
    // Expression opcodes (20.2.5.4).
    0x5B23 "Acquire"                Expression  Argument    [Target Word]                    Empty    Other;
    0x72   "Add"                    Expression  Argument    [Term Term Target]               Empty    Other;
    0x7B   "And"                    Expression  Argument    [Term Term Target]               Empty    Other;
    0x73   "Concatenate"            Expression  Argument    [Term Term Target]               Empty    Other;
    0x84   "ConcatenateResTemplate" Expression  Argument    [Term Term Target]               Empty    Other;
    0x5B12 "CondRefOf"              Expression  Argument    [Target Target]                  Empty    Other;
    0x9D   "CopyObject"             Expression  Argument    [Term Target]                    Empty    Other;
    0x76   "Decrement"              Expression  Argument    [Target]                         Empty    Other;
    0x83   "DerefOf"                Expression  Target      [Term]                           Empty    Other;
    0x78   "Divide"                 Expression  Argument    [Term Term Target Target]        Empty    Other;
    0x81   "FindSetLeftBit"         Expression  Argument    [Term Target]                    Empty    Other;
    0x82   "FindSetRightBit"        Expression  Argument    [Term Target]                    Empty    Other;
    0x5B28 "FromBCD"                Expression  Argument    [Term Target]                    Empty    Other;
    0x75   "Increment"              Expression  Argument    [Target]                         Empty    Other;
    0x88   "Index"                  Expression  Target      [Term Term Target]               Empty    Other;
    0x90   "LAnd"                   Expression  Argument    [Term Term]                      Empty    Other;
    0x93   "LEqual"                 Expression  Argument    [Term Term]                      Empty    Other;
    0x94   "LGreater"               Expression  Argument    [Term Term]                      Empty    Other;
    0x95   "LLess"                  Expression  Argument    [Term Term]                      Empty    Other;
    0x9E   "Mid"                    Expression  Argument    [Term Term Term Target]          Empty    Other;
    0x92   "LNot"                   Expression  Argument    [Term]                           Empty    Other;
    0x5B20 "Load"                   Expression  Argument    [Name Target]                    Empty    Other;
    0x5B1F "LoadTable"              Expression  Argument    [Term Term Term Term Term Term]  Empty    Other;
    0x91   "LOr"                    Expression  Argument    [Term Term]                      Empty    Other;
    0x89   "Match"                  Expression  Argument    [Term Byte Term Byte Term Term]  Empty    Other;
    0x85   "Mod"                    Expression  Argument    [Term Term Target]               Empty    Other;
    0x77   "Multiply"               Expression  Argument    [Term Term Target]               Empty    Other;
    0x7C   "NAnd"                   Expression  Argument    [Term Term Target]               Empty    Other;
    0x7E   "NOr"                    Expression  Argument    [Term Term Target]               Empty    Other;
    0x80   "Not"                    Expression  Argument    [Term Target]                    Empty    Other;
    0x8E   "ObjectType"             Expression  Argument    [Target]                         Empty    Other;
    0x7D   "Or"                     Expression  Argument    [Term Term Target]               Empty    Other;
    0x71   "RefOf"                  Expression  Target      [Target]                         Empty    Other;
    0x79   "ShiftLeft"              Expression  Argument    [Term Term Target]               Empty    Other;
    0x7A   "ShiftRight"             Expression  Argument    [Term Term Target]               Empty    Other;
    0x87   "SizeOf"                 Expression  Argument    [Target]                         Empty    Other;
    0x70   "Store"                  Expression  Argument    [Term Target]                    Empty    Other;
    0x74   "Subtract"               Expression  Argument    [Term Term Target]               Empty    Other;
    0x5B33 "Timer"                  Value       Argument    []                               Empty    Other;
    0x5B29 "ToBCD"                  Expression  Argument    [Term Target]                    Empty    Other;
    0x96   "ToBuffer"               Expression  Argument    [Term Target]                    Empty    Other;
    0x97   "ToDecimalString"        Expression  Argument    [Term Target]                    Empty    Other;
    0x98   "ToHexString"            Expression  Argument    [Term Target]                    Empty    Other;
    0x99   "ToInteger"              Expression  Argument    [Term Target]                    Empty    Other;
    0x9C   "ToString"               Expression  Argument    [Term Term Target]               Empty    Other;
    0x5B25 "Wait"                   Expression  Argument    [Target Term]                    Empty    Other;
    0x7F   "XOr"                    Expression  Argument    [Term Term Target]               Empty    Other;
    // Args, Locals and Debug (20.2.6).
    0x68   "Arg0"                   Value       Target      []                               Empty    Other;
    0x69   "Arg1"                   Value       Target      []                               Empty    Other;
    0x6A   "Arg2"                   Value       Target      []                               Empty    Other;
    0x6B   "Arg3"                   Value       Target      []                               Empty    Other;
    0x6C   "Arg4"                   Value       Target      []                               Empty    Other;
    0x6D   "Arg5"                   Value       Target      []                               Empty    Other;
    0x6E   "Arg6"                   Value       Target      []                               Empty    Other;
    0x60   "Local0"                 Value       Target      []                               Empty    Other;
    0x61   "Local1"                 Value       Target      []                               Empty    Other;
    0x62   "Local2"                 Value       Target      []                               Empty    Other;
    0x63   "Local3"                 Value       Target      []                               Empty    Other;
    0x64   "Local4"                 Value       Target      []                               Empty    Other;
    0x65   "Local5"                 Value       Target      []                               Empty    Other;
    0x66   "Local6"                 Value       Target      []                               Empty    Other;
    0x67   "Local7"                 Value       Target      []                               Empty    Other;
    0x5B31 "Debug"                  Value       Target      []                               Empty    Other;
};

/// Where in `ROWS` the row of an opcode stands: first of those of one byte, then of those of 5B and a second byte. No
/// row stands at 255.
static INDEX: [u8; 512] = [
    5, 6, 255, 255, 255, 255, 12, 255, 13, 255, 0, 1, 2, 4, 3, 255, 14, 9, 10, 11, 28, 25, 255,
    255, 255, 255, 255, 255, 255, 255, 255, 255, 255, 255, 255, 255, 255, 255, 255, 255, 255, 255,
    255, 255, 255, 255, 255, 255, 255, 255, 255, 255, 255, 255, 255, 255, 255, 255, 255, 255, 255,
    255, 255, 255, 255, 255, 255, 255, 255, 255, 255, 255, 255, 255, 255, 255, 255, 255, 255, 255,
    255, 255, 255, 255, 255, 255, 255, 255, 255, 255, 255, 255, 255, 255, 255, 255, 104, 105, 106,
    107, 108, 109, 110, 111, 97, 98, 99, 100, 101, 102, 103, 255, 86, 82, 51, 53, 87, 63, 57, 76,
    59, 83, 84, 52, 77, 81, 78, 96, 79, 60, 61, 58, 54, 75, 41, 85, 64, 74, 18, 21, 17, 16, 80, 20,
    65, 73, 70, 66, 67, 68, 90, 91, 92, 93, 255, 255, 94, 56, 69, 36, 38, 39, 49, 40, 44, 34, 255,
    255, 255, 255, 255, 255, 255, 255, 255, 255, 255, 255, 255, 255, 255, 255, 255, 255, 255, 255,
    255, 255, 255, 255, 255, 255, 255, 255, 255, 255, 255, 255, 255, 255, 255, 255, 255, 255, 35,
    255, 255, 255, 255, 255, 255, 255, 255, 255, 255, 255, 255, 255, 255, 255, 255, 255, 255, 255,
    255, 255, 255, 255, 255, 255, 255, 255, 255, 255, 255, 255, 255, 255, 255, 255, 255, 255, 255,
    255, 255, 255, 255, 255, 255, 255, 255, 255, 255, 255, 255, 7, 255, 29, 24, 255, 255, 255, 255,
    255, 255, 255, 255, 255, 255, 255, 255, 255, 255, 255, 55, 19, 255, 255, 255, 255, 255, 255,
    255, 255, 255, 255, 255, 72, 71, 47, 46, 50, 45, 95, 43, 42, 62, 89, 48, 255, 255, 255, 255,
    255, 8, 112, 37, 88, 255, 255, 255, 255, 255, 255, 255, 255, 255, 255, 255, 255, 255, 255, 255,
    255, 255, 255, 255, 255, 255, 255, 255, 255, 255, 255, 255, 255, 255, 255, 255, 255, 255, 255,
    255, 255, 255, 255, 255, 255, 255, 255, 255, 255, 255, 255, 255, 255, 255, 255, 255, 255, 255,
    255, 255, 255, 255, 255, 255, 255, 255, 255, 255, 255, 255, 255, 255, 255, 255, 255, 255, 255,
    255, 255, 255, 255, 30, 26, 23, 32, 31, 33, 27, 15, 22, 255, 255, 255, 255, 255, 255, 255, 255,
    255, 255, 255, 255, 255, 255, 255, 255, 255, 255, 255, 255, 255, 255, 255, 255, 255, 255, 255,
    255, 255, 255, 255, 255, 255, 255, 255, 255, 255, 255, 255, 255, 255, 255, 255, 255, 255, 255,
    255, 255, 255, 255, 255, 255, 255, 255, 255, 255, 255, 255, 255, 255, 255, 255, 255, 255, 255,
    255, 255, 255, 255, 255, 255, 255, 255, 255, 255, 255, 255, 255, 255, 255, 255, 255, 255, 255,
    255, 255, 255, 255, 255, 255, 255, 255, 255, 255, 255, 255, 255, 255, 255, 255, 255, 255, 255,
    255, 255, 255, 255, 255, 255, 255, 255, 255, 255, 255, 255, 255, 255, 255, 255,
];

/// Where in `INDEX` an opcode is looked up. Others may be looked up at the same place.
fn slot(opcode: u16) -> u16
    ensures opcode { result ≡ cond (nat_lt opcode 256) opcode (256 + opcode % 256) }
    ensures inside { result < 512 }
{
    if opcode < 256 {
        opcode
    } else {
        256 + opcode % 256
    }
}

fn place_at(slot: u16) -> u8
    requires { slot < 512 }
    ensures { result ≡ get_or INDEX slot 0 }
{
    INDEX[slot as usize]
}

/// The table: row by row what the definition says.
fn table() -> &'static [OpRow]
    ensures { map row_view result.now ≡ rows }
{
    &ROWS
}

fn row_at(rows: &[OpRow], place: u8) -> Option<&OpRow>
    ensures { option_copied result ≡ slice_get rows.now place }
{
    rows.get(place as usize)
}

/// The row of an opcode where it stands in the table, if it has one.
pub fn listed_row(opcode: u16) -> Option<&'static OpRow>
    ensures { option_map row_view (option_copied result) ≡ row_of opcode }
{
    match row_at(table(), place_at(slot(opcode))) {
        None => None,
        Some(row) => {
            if row.opcode == opcode {
                Some(row)
            } else {
                None
            }
        }
    }
}

/// The row of an opcode, if it has one.
pub fn row(opcode: u16) -> Option<OpRow>
    ensures { option_map row_view result ≡ row_of opcode }
{
    listed_row(opcode).copied()
}

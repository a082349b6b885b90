//! Names for the opcodes of AML, in the order of the standard's sections (ACPI 6.5, 20.2.3 to 20.2.6). A two-byte
//! opcode `5B xx` is the number 0x5Bxx, as in a `Node`.

/// Byte (ACPI 6.5, 20.2.3).
pub const BYTE: u16 = 0x0A;

/// Word (ACPI 6.5, 20.2.3).
pub const WORD: u16 = 0x0B;

/// Dword (ACPI 6.5, 20.2.3).
pub const DWORD: u16 = 0x0C;

/// Qword (ACPI 6.5, 20.2.3).
pub const QWORD: u16 = 0x0E;

/// Text (ACPI 6.5, 20.2.3).
pub const TEXT: u16 = 0x0D;

/// Zero (ACPI 6.5, 20.2.3).
pub const ZERO: u16 = 0x00;

/// One (ACPI 6.5, 20.2.3).
pub const ONE: u16 = 0x01;

/// Ones (ACPI 6.5, 20.2.3).
pub const ONES: u16 = 0xFF;

/// Revision (ACPI 6.5, 20.2.3).
pub const REVISION: u16 = 0x5B30;

/// Buffer (ACPI 6.5, 20.2.3).
pub const BUFFER: u16 = 0x11;

/// Package (ACPI 6.5, 20.2.3).
pub const PACKAGE: u16 = 0x12;

/// VarPackage (ACPI 6.5, 20.2.3).
pub const VAR_PACKAGE: u16 = 0x13;

/// Alias (ACPI 6.5, 20.2.5.1).
pub const ALIAS: u16 = 0x06;

/// Name (ACPI 6.5, 20.2.5.1).
pub const NAME: u16 = 0x08;

/// Scope (ACPI 6.5, 20.2.5.1).
pub const SCOPE: u16 = 0x10;

/// BankField (ACPI 6.5, 20.2.5.2).
pub const BANK_FIELD: u16 = 0x5B87;

/// CreateBitField (ACPI 6.5, 20.2.5.2).
pub const CREATE_BIT_FIELD: u16 = 0x8D;

/// CreateByteField (ACPI 6.5, 20.2.5.2).
pub const CREATE_BYTE_FIELD: u16 = 0x8C;

/// CreateDWordField (ACPI 6.5, 20.2.5.2).
pub const CREATE_DWORD_FIELD: u16 = 0x8A;

/// CreateField (ACPI 6.5, 20.2.5.2).
pub const CREATE_FIELD: u16 = 0x5B13;

/// CreateQWordField (ACPI 6.5, 20.2.5.2).
pub const CREATE_QWORD_FIELD: u16 = 0x8F;

/// CreateWordField (ACPI 6.5, 20.2.5.2).
pub const CREATE_WORD_FIELD: u16 = 0x8B;

/// DataRegion (ACPI 6.5, 20.2.5.2).
pub const DATA_REGION: u16 = 0x5B88;

/// Device (ACPI 6.5, 20.2.5.2).
pub const DEVICE: u16 = 0x5B82;

/// Event (ACPI 6.5, 20.2.5.2).
pub const EVENT: u16 = 0x5B02;

/// External (ACPI 6.5, 20.2.5.2).
pub const EXTERNAL: u16 = 0x15;

/// Field (ACPI 6.5, 20.2.5.2).
pub const FIELD: u16 = 0x5B81;

/// IndexField (ACPI 6.5, 20.2.5.2).
pub const INDEX_FIELD: u16 = 0x5B86;

/// Method (ACPI 6.5, 20.2.5.2).
pub const METHOD: u16 = 0x14;

/// Mutex (ACPI 6.5, 20.2.5.2).
pub const MUTEX: u16 = 0x5B01;

/// OperationRegion (ACPI 6.5, 20.2.5.2).
pub const OPERATION_REGION: u16 = 0x5B80;

/// PowerResource (ACPI 6.5, 20.2.5.2).
pub const POWER_RESOURCE: u16 = 0x5B84;

/// Processor (ACPI 6.5, 20.2.5.2).
pub const PROCESSOR: u16 = 0x5B83;

/// ThermalZone (ACPI 6.5, 20.2.5.2).
pub const THERMAL_ZONE: u16 = 0x5B85;

/// Break (ACPI 6.5, 20.2.5.3).
pub const BREAK: u16 = 0xA5;

/// BreakPoint (ACPI 6.5, 20.2.5.3).
pub const BREAK_POINT: u16 = 0xCC;

/// Continue (ACPI 6.5, 20.2.5.3).
pub const CONTINUE: u16 = 0x9F;

/// Fatal (ACPI 6.5, 20.2.5.3).
pub const FATAL: u16 = 0x5B32;

/// If (ACPI 6.5, 20.2.5.3).
pub const IF: u16 = 0xA0;

/// Else (ACPI 6.5, 20.2.5.3).
pub const ELSE: u16 = 0xA1;

/// Noop (ACPI 6.5, 20.2.5.3).
pub const NOOP: u16 = 0xA3;

/// Notify (ACPI 6.5, 20.2.5.3).
pub const NOTIFY: u16 = 0x86;

/// Release (ACPI 6.5, 20.2.5.3).
pub const RELEASE: u16 = 0x5B27;

/// Reset (ACPI 6.5, 20.2.5.3).
pub const RESET: u16 = 0x5B26;

/// Return (ACPI 6.5, 20.2.5.3).
pub const RETURN: u16 = 0xA4;

/// Signal (ACPI 6.5, 20.2.5.3).
pub const SIGNAL: u16 = 0x5B24;

/// Sleep (ACPI 6.5, 20.2.5.3).
pub const SLEEP: u16 = 0x5B22;

/// Stall (ACPI 6.5, 20.2.5.3).
pub const STALL: u16 = 0x5B21;

/// Unload (ACPI 6.5, 20.2.5.3).
pub const UNLOAD: u16 = 0x5B2A;

/// While (ACPI 6.5, 20.2.5.3).
pub const WHILE: u16 = 0xA2;

/// Acquire (ACPI 6.5, 20.2.5.4).
pub const ACQUIRE: u16 = 0x5B23;

/// Add (ACPI 6.5, 20.2.5.4).
pub const ADD: u16 = 0x72;

/// And (ACPI 6.5, 20.2.5.4).
pub const AND: u16 = 0x7B;

/// Concatenate (ACPI 6.5, 20.2.5.4).
pub const CONCATENATE: u16 = 0x73;

/// ConcatenateResTemplate (ACPI 6.5, 20.2.5.4).
pub const CONCATENATE_RES_TEMPLATE: u16 = 0x84;

/// CondRefOf (ACPI 6.5, 20.2.5.4).
pub const COND_REF_OF: u16 = 0x5B12;

/// CopyObject (ACPI 6.5, 20.2.5.4).
pub const COPY_OBJECT: u16 = 0x9D;

/// Decrement (ACPI 6.5, 20.2.5.4).
pub const DECREMENT: u16 = 0x76;

/// DerefOf (ACPI 6.5, 20.2.5.4).
pub const DEREF_OF: u16 = 0x83;

/// Divide (ACPI 6.5, 20.2.5.4).
pub const DIVIDE: u16 = 0x78;

/// FindSetLeftBit (ACPI 6.5, 20.2.5.4).
pub const FIND_SET_LEFT_BIT: u16 = 0x81;

/// FindSetRightBit (ACPI 6.5, 20.2.5.4).
pub const FIND_SET_RIGHT_BIT: u16 = 0x82;

/// FromBCD (ACPI 6.5, 20.2.5.4).
pub const FROM_BCD: u16 = 0x5B28;

/// Increment (ACPI 6.5, 20.2.5.4).
pub const INCREMENT: u16 = 0x75;

/// Index (ACPI 6.5, 20.2.5.4).
pub const INDEX: u16 = 0x88;

/// LAnd (ACPI 6.5, 20.2.5.4).
pub const LAND: u16 = 0x90;

/// LEqual (ACPI 6.5, 20.2.5.4).
pub const LEQUAL: u16 = 0x93;

/// LGreater (ACPI 6.5, 20.2.5.4).
pub const LGREATER: u16 = 0x94;

/// LLess (ACPI 6.5, 20.2.5.4).
pub const LLESS: u16 = 0x95;

/// Mid (ACPI 6.5, 20.2.5.4).
pub const MID: u16 = 0x9E;

/// LNot (ACPI 6.5, 20.2.5.4).
pub const LNOT: u16 = 0x92;

/// Load (ACPI 6.5, 20.2.5.4).
pub const LOAD: u16 = 0x5B20;

/// LoadTable (ACPI 6.5, 20.2.5.4).
pub const LOAD_TABLE: u16 = 0x5B1F;

/// LOr (ACPI 6.5, 20.2.5.4).
pub const LOR: u16 = 0x91;

/// Match (ACPI 6.5, 20.2.5.4).
pub const MATCH: u16 = 0x89;

/// Mod (ACPI 6.5, 20.2.5.4).
pub const MOD: u16 = 0x85;

/// Multiply (ACPI 6.5, 20.2.5.4).
pub const MULTIPLY: u16 = 0x77;

/// NAnd (ACPI 6.5, 20.2.5.4).
pub const NAND: u16 = 0x7C;

/// NOr (ACPI 6.5, 20.2.5.4).
pub const NOR: u16 = 0x7E;

/// Not (ACPI 6.5, 20.2.5.4).
pub const NOT: u16 = 0x80;

/// ObjectType (ACPI 6.5, 20.2.5.4).
pub const OBJECT_TYPE: u16 = 0x8E;

/// Or (ACPI 6.5, 20.2.5.4).
pub const OR: u16 = 0x7D;

/// RefOf (ACPI 6.5, 20.2.5.4).
pub const REF_OF: u16 = 0x71;

/// ShiftLeft (ACPI 6.5, 20.2.5.4).
pub const SHIFT_LEFT: u16 = 0x79;

/// ShiftRight (ACPI 6.5, 20.2.5.4).
pub const SHIFT_RIGHT: u16 = 0x7A;

/// SizeOf (ACPI 6.5, 20.2.5.4).
pub const SIZE_OF: u16 = 0x87;

/// Store (ACPI 6.5, 20.2.5.4).
pub const STORE: u16 = 0x70;

/// Subtract (ACPI 6.5, 20.2.5.4).
pub const SUBTRACT: u16 = 0x74;

/// Timer (ACPI 6.5, 20.2.5.4).
pub const TIMER: u16 = 0x5B33;

/// ToBCD (ACPI 6.5, 20.2.5.4).
pub const TO_BCD: u16 = 0x5B29;

/// ToBuffer (ACPI 6.5, 20.2.5.4).
pub const TO_BUFFER: u16 = 0x96;

/// ToDecimalString (ACPI 6.5, 20.2.5.4).
pub const TO_DECIMAL_STRING: u16 = 0x97;

/// ToHexString (ACPI 6.5, 20.2.5.4).
pub const TO_HEX_STRING: u16 = 0x98;

/// ToInteger (ACPI 6.5, 20.2.5.4).
pub const TO_INTEGER: u16 = 0x99;

/// ToString (ACPI 6.5, 20.2.5.4).
pub const TO_STRING: u16 = 0x9C;

/// Wait (ACPI 6.5, 20.2.5.4).
pub const WAIT: u16 = 0x5B25;

/// XOr (ACPI 6.5, 20.2.5.4).
pub const XOR: u16 = 0x7F;

/// Arg0 (ACPI 6.5, 20.2.6).
pub const ARG0: u16 = 0x68;

/// Arg1 (ACPI 6.5, 20.2.6).
pub const ARG1: u16 = 0x69;

/// Arg2 (ACPI 6.5, 20.2.6).
pub const ARG2: u16 = 0x6A;

/// Arg3 (ACPI 6.5, 20.2.6).
pub const ARG3: u16 = 0x6B;

/// Arg4 (ACPI 6.5, 20.2.6).
pub const ARG4: u16 = 0x6C;

/// Arg5 (ACPI 6.5, 20.2.6).
pub const ARG5: u16 = 0x6D;

/// Arg6 (ACPI 6.5, 20.2.6).
pub const ARG6: u16 = 0x6E;

/// Local0 (ACPI 6.5, 20.2.6).
pub const LOCAL0: u16 = 0x60;

/// Local1 (ACPI 6.5, 20.2.6).
pub const LOCAL1: u16 = 0x61;

/// Local2 (ACPI 6.5, 20.2.6).
pub const LOCAL2: u16 = 0x62;

/// Local3 (ACPI 6.5, 20.2.6).
pub const LOCAL3: u16 = 0x63;

/// Local4 (ACPI 6.5, 20.2.6).
pub const LOCAL4: u16 = 0x64;

/// Local5 (ACPI 6.5, 20.2.6).
pub const LOCAL5: u16 = 0x65;

/// Local6 (ACPI 6.5, 20.2.6).
pub const LOCAL6: u16 = 0x66;

/// Local7 (ACPI 6.5, 20.2.6).
pub const LOCAL7: u16 = 0x67;

/// Debug (ACPI 6.5, 20.2.6).
pub const DEBUG: u16 = 0x5B31;

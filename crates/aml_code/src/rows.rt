//! What the table of opcodes says of an opcode, and which opcodes a position takes (ACPI 6.5, 20.2.5 and 20.3).
ghost use Rattle.std.specs.Prelude.{◌≡◌};
ghost use Rattle.aml_code.specs.Opcodes.{has_length, takes as row_taken};

/// The four groups of opcodes.
#[derive(Clone, Copy)]
pub enum Group {
    /// Constants, data objects, Locals, Args, Debug, Revision and Timer.
    Value,
    /// What gives a value when it runs, calls apart.
    Expression,
    Statement,
    Declaration,
}

/// Where an opcode may stand. A table whose code may run takes what a body takes as its terms, but for Return.
#[derive(Clone, Copy)]
pub enum Place {
    /// As a data object, as an argument and as a term of a body.
    Data,
    /// As a target, as an argument and as a term of a body.
    Target,
    /// As an argument and as a term of a body.
    Argument,
    /// As a term of a body.
    Statement,
    /// As a term of a body alone.
    Return,
    /// As a term of a body; in a table, as the guard around Externals.
    If,
    /// As a term of a body, right after an If.
    Else,
    /// As a term of a table or of a body.
    Declaration,
    /// As a term of a table or of a body, also inside a guard.
    External,
    /// As a term of a table, never of a body: what opens a scope.
    Scope,
    /// As a term of a table, never of a body.
    Method,
}

/// What stands in a fixed place after an opcode.
#[derive(Clone, Copy)]
pub enum PartKind {
    /// A TermArg.
    Term,
    /// A SuperName or a Target.
    Target,
    /// A NameString with a segment at least.
    Name,
    /// A NameString that may have no segment: a Scope's.
    ScopeName,
    /// A data object.
    Data,
    Byte,
    /// A byte up to 7: an External's number of arguments.
    Count,
    Word,
    Dword,
    Qword,
    /// Bytes 01 to FF, ended by 00.
    Text,
}

/// What follows the parts up to the end of the package.
#[derive(Clone, Copy)]
pub enum TailKind {
    Terms,
    Bytes,
    Elements,
    Fields,
    /// A method's body; in a step of a table whose code may run, the terms inside a term too (`tail_in`).
    Body,
}

/// What a term declares with its name and nothing else.
#[derive(Clone, Copy)]
pub enum Object {
    Name,
    Mutex,
    Event,
    Region,
    DataRegion,
    BufferField,
    Device,
    Processor,
    PowerResource,
    ThermalZone,
}

/// What a term does to the namespace (ACPI 6.5, 20.2.5.1 and 20.2.5.2).
#[derive(Clone, Copy)]
pub enum Role {
    /// It declares its name. The terms inside it stand under that path.
    Declares(Object),
    /// It declares its name as a method.
    Method,
    /// It declares nothing. The terms inside it stand under the path that its name leads to.
    Scope,
    /// It declares its second name as another name for what its first leads to.
    Alias,
    /// It says how many arguments a name takes that is declared elsewhere, whatever object type it gives.
    External,
    /// It declares the named units of its field list.
    Fields,
    /// An If: nothing. The terms inside it stand in the same scope; a run of the code outside methods may pass over
    /// them.
    Guard,
    /// Nothing.
    Other,
}

/// A row of the table of opcodes.
#[derive(Clone, Copy)]
pub struct OpRow {
    /// The opcode; a two-byte opcode `5B xx` is 0x5Bxx.
    pub opcode: u16,
    pub mnemonic: &'static str,
    pub group: Group,
    pub place: Place,
    /// The kinds of the parts in order.
    pub parts: &'static [PartKind],
    /// What follows the parts, where there is a package.
    pub tail: Option<TailKind>,
    pub role: Role,
}

impl OpRow {
    /// Whether a package length stands before the parts.
    pub fn has_length(&self) -> bool
        ensures { result ≡ has_length self.now.tail }
    {
        self.tail.is_some()
    }
}

/// Where a node stands.
#[derive(Clone, Copy)]
pub enum Position {
    /// In a list of terms of a table.
    ModuleTerm,
    /// In the list of terms of a guard: an If in a table whose predicate is 00.
    GuardTerm,
    /// In a list of terms of a table whose code may run. Such terms are read in steps (`ReadsStep`); a step has of the
    /// terms inside a term only their span.
    RunTerm,
    /// The same, right after an If.
    RunAfterIf,
    /// In a list of terms of a method's body.
    BodyTerm,
    /// The same, right after an If.
    AfterIf,
    /// As a TermArg.
    Argument,
    /// As a SuperName or a Target.
    Target,
    /// As a data object or an element of a package.
    Data,
}

/// Whether a position takes the opcodes of a place.
pub fn takes(position: Position, place: Place) -> bool
    ensures { result ≡ row_taken position place }
{
    match position {
        Position::ModuleTerm => matches!(
            place,
            Place::If | Place::Declaration | Place::External | Place::Scope | Place::Method
        ),
        Position::GuardTerm => matches!(place, Place::External),
        Position::RunTerm => !matches!(place, Place::Else | Place::Return),
        Position::RunAfterIf => !matches!(place, Place::Return),
        Position::BodyTerm => !matches!(place, Place::Else | Place::Scope | Place::Method),
        Position::AfterIf => !matches!(place, Place::Scope | Place::Method),
        Position::Argument => matches!(place, Place::Data | Place::Target | Place::Argument),
        Position::Target => matches!(place, Place::Target),
        Position::Data => matches!(place, Place::Data),
    }
}

//! Laws of tables whose code may run, about the definitions alone: each the contract of a function that does nothing.
ghost use Rattle.std.specs.Prelude.{List, ℕ};
ghost use Rattle.aml_parse.specs.Running.{Names, ReadsOneWay, SpellsTable, ReadsForward, ReadsItAgain};

/// A table whose code may run reads one way, whatever its names mean: where only what stands in front of a term says
/// how many arguments the names in it take, two readings of a table are the same terms.
pub fn reads_one_way<S, E>()
    ensures { (names : Names S E) (code : List ℕ) → ReadsOneWay names code }
{}

/// The terms that a table reads as are spelled by its code, and each method's body is the span where it stands.
pub fn spells_table<S, E>()
    ensures { (names : Names S E) (code : List ℕ) → SpellsTable names code }
{}

/// Reading forward finds what a table reads as, and where its reading stops.
pub fn reads_forward<S, E>()
    ensures found { (names : Names S E) (code : List ℕ) → ReadsForward names code }
    ensures again { (names : Names S E) (code : List ℕ) → ReadsItAgain names code }
{}

//! A law of where terms stand, about the definitions alone: the contract of a function that does nothing.
ghost use Rattle.std.specs.Prelude.{List, Bool, ℕ};
ghost use Rattle.aml_namespace.specs.Namespace.{Givens};
ghost use Rattle.aml_load.specs.StandingLaws.{StandAsDeclared};

/// The terms of a set, each by itself where it stands, declare one after the other what its tables load to.
pub fn terms_stand_as_declared()
    ensures { (any_run unknown_zero : Bool) (gs : Givens) (tables : List (List ℕ)) →
        StandAsDeclared any_run unknown_zero gs tables }
{}

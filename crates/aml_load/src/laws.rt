//! Laws of loads, about the definitions alone: each the contract of a function that does nothing. They hold whether the
//! code outside methods may run or not.
ghost use Rattle.std.specs.Prelude.{List, Bool, ℕ};
ghost use Rattle.aml_namespace.specs.Namespace.{Givens};
ghost use Rattle.aml_load.specs.Tables.{LoadsOneWay, LoadsForward, LoadsAgain, AreSpelled, LoadsInTextOrder};
ghost use Rattle.aml_load.specs.Tables.{LoadsStrictly};

use aml_space::stays_as_it_is;

/// Tables load to one list of entries, as terms that their AML spells.
pub fn loads_one_way()
    ensures one { (any_run unknown_zero : Bool) (gs : Givens) (tables : List (List ℕ)) →
        LoadsOneWay any_run unknown_zero gs tables }
    ensures spelled { (any_run unknown_zero : Bool) (gs : Givens) (tables : List (List ℕ)) →
        AreSpelled any_run unknown_zero gs tables }
{}

/// Their methods are those whose bodies stand in the trees, in the order of the text, and aren't too many.
pub fn loads_in_text_order()
    ensures { (any_run unknown_zero : Bool) (gs : Givens) (tables : List (List ℕ)) →
        LoadsInTextOrder any_run unknown_zero gs tables }
{}

/// Loading tables forward finds what they load to, and where their load stops.
pub fn loads_forward()
    ensures found { (any_run unknown_zero : Bool) (gs : Givens) (tables : List (List ℕ)) →
        LoadsForward any_run unknown_zero gs tables }
    ensures again { (any_run unknown_zero : Bool) (gs : Givens) (tables : List (List ℕ)) →
        LoadsAgain any_run unknown_zero gs tables }
{}

/// Where the code outside methods may not run, each path is declared at most once, and surely, and each name takes the
/// arguments of the one namespace that there is.
pub fn loads_strictly()
    ensures { (unknown_zero : Bool) (gs : Givens) (tables : List (List ℕ)) → LoadsStrictly unknown_zero gs tables }
{
    stays_as_it_is();
}

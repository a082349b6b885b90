//! Laws of the runs of tables, each as the contract of a function that does nothing.
ghost use Rattle.std.specs.Prelude.{List, Bool, ℕ};
ghost use Rattle.aml_namespace.specs.Namespace.{Givens};
ghost use Rattle.aml_runs.specs.TableRuns.{RunsAreSelections, EveryRunOfTablesAgrees};
ghost use Rattle.aml_runs.specs.Worked.{IsWorked, dev0_bar, new, early_code, early_terms, early_run, untaken_code};
ghost use Rattle.aml_runs.specs.Worked.{untaken_terms, untaken_run, left_code, left_terms, left_run, named_code};
ghost use Rattle.aml_runs.specs.Worked.{named_terms, named_run, opened_run, unsourced_code, unsourced_terms};
ghost use Rattle.aml_runs.specs.Worked.{unsourced_run, aimed_code, aimed_terms, aimed_run};

use aml_load::loads_forward;
use aml_namespace::every_run_agrees;

/// Each run of tables is a selection of the entries to which they load.
pub fn runs_are_selections()
    ensures { (unknown_zero : Bool) (gs : Givens) (tables : List (List ℕ)) → RunsAreSelections unknown_zero gs tables }
{}

/// Where the kinds that a name may mean agree on a count, the name has that count in every run of the tables in which
/// it finds anything.
pub fn every_run_of_tables_agrees()
    ensures { (unknown_zero : Bool) (gs : Givens) (tables : List (List ℕ)) →
        EveryRunOfTablesAgrees unknown_zero gs tables }
{
    runs_are_selections();
    every_run_agrees();
}

/// Worked runs of tables, in which a name has a count that isn't told.
pub fn worked_runs()
    ensures early { IsWorked early_code early_terms early_run dev0_bar 1 }
    ensures untaken { IsWorked untaken_code untaken_terms untaken_run dev0_bar 1 }
    ensures left { IsWorked left_code left_terms left_run dev0_bar 1 }
    ensures named { IsWorked named_code named_terms named_run dev0_bar 1 }
    ensures opened { IsWorked named_code named_terms opened_run dev0_bar 2 }
    ensures unsourced { IsWorked unsourced_code unsourced_terms unsourced_run new 1 }
    ensures aimed { IsWorked aimed_code aimed_terms aimed_run new 2 }
{
    loads_forward();
}

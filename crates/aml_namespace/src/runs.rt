//! What holds of every run of the code outside methods: laws about the definitions alone, each as the contract of a
//! function that does nothing.
ghost use Rattle.std.specs.Prelude.{List};
ghost use Rattle.aml_namespace.specs.Namespace.{Entry};
ghost use Rattle.aml_namespace.specs.Runs.{EveryRunAgrees, EveryRunLeadsThere, AreSure, StaysAsItIs, EachIsMet};
ghost use Rattle.aml_namespace.specs.Runs.{RunsDiffer, SureStays};

/// Where the kinds that a name may mean agree on a count, the name has that count in every run in which it finds
/// something.
pub fn every_run_agrees()
    ensures { (es : List Entry) → EveryRunAgrees es }
{}

/// Where it is told which path a Scope opens or an Alias names, no run leads elsewhere.
pub fn every_run_leads_there()
    ensures { (es : List Entry) → EveryRunLeadsThere es }
{}

/// No more can be told: each count that is met is the name's in some run, and where they differ two runs do.
pub fn runs_differ()
    ensures each { (es : List Entry) → EachIsMet es }
    ensures differ { (es : List Entry) → RunsDiffer es }
{}

/// Where all is sure nothing changes.
pub fn stays_as_it_is()
    ensures { (es : List Entry) → AreSure es → StaysAsItIs es }
{}

/// Further declarations change nothing at a path that has a sure one.
pub fn sure_stays()
    ensures { (es : List Entry) → SureStays es }
{}

//! Laws about the definitions alone, each as the contract of a function that does nothing.
ghost use Rattle.std.specs.Prelude.{List, map as map_list};
ghost use Rattle.std.specs.FinMap as map;
ghost use Rattle.aml_namespace.specs.Namespace.{Entry};
ghost use Rattle.aml_namespace.specs.Known.{AreRows, declarations_in, row_of};

/// The rows of a list of entries, which are those of the text, are the paths that it declares: each once, in their
/// order, with what its declarations say.
pub fn rows_are_declared()
    ensures { (es : List Entry) → AreRows es (map_list row_of (map.entries (declarations_in es))) }
{}

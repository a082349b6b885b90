//! The bodies of methods.
ghost use Rattle.std.specs.Prelude.{◌≡◌, ◌≤◌, ℕ, List, length, Err, OnOk, IfErr};
ghost use Rattle.aml_code.specs.Pieces.{line_pieces};
ghost use Rattle.aml_code.specs.Tree.{Trees};
ghost use Rattle.aml_code.specs.View.{nodes_view};
ghost use Rattle.aml_namespace.specs.Namespace.{Entry};
ghost use Rattle.aml_namespace.specs.Known.{StandsFor};
ghost use Rattle.aml_set.specs.Code.{AreShort};
ghost use Rattle.aml_set.specs.Methods.{method_in, span_of};
ghost use Rattle.aml_set.specs.Views.{codes_view};
ghost use Rattle.aml_load.specs.Views.{IsReading, GivesBody, ReadsBy};

use aml_code::{CodeFault, Node, Sink};
use aml_parse::{body_terms, tell_terms};
use aml_set::{Method, span_of};
use aml_space::{BodyNames, Space};
use std::alloc::Global;

/// The terms of the body of a method, in the namespace of all tables (ACPI 6.5, 5.3), by the AML of each table in load
/// order. With `unknown_zero` a name that leads nowhere counts as one without arguments.
///
/// The offset of a fault counts from the body's first byte.
pub fn read_body(
    alloc: Global,
    tables: &[&[u8]],
    space: &Space,
    method: &Method,
    unknown_zero: bool,
) -> Result<Vec<Node>, CodeFault>
    // The limit of a table.
    requires { AreShort (codes_view tables.now) }

    // The body reads as its terms and as no others; or memory was refused; or it reads as none, and the fault is true
    // of it.
    ensures reading { (es : List Entry) → StandsFor space.now es → IsReading (λ nodes. nodes_view nodes.items)
        unknown_zero es (codes_view tables.now) (method_in space.now method.now) result }
    // Which fault it is: the first that is met in reading forward.
    ensures forward { (es : List Entry) → StandsFor space.now es → GivesBody (λ nodes. nodes_view nodes.items)
        unknown_zero es (codes_view tables.now) (method_in space.now method.now) result }
{
    read_span(alloc, span_of(tables, method), space, method, unknown_zero)
}

/// The terms of the body of a method, as `read_body`, by the body's bytes.
pub fn read_span(
    alloc: Global,
    bytes: &[u8],
    space: &Space,
    method: &Method,
    unknown_zero: bool,
) -> Result<Vec<Node>, CodeFault>
    // The limit of a table.
    requires { length bytes.now ≤ 16777216 }

    // In whatever tables they are the method's body: it reads as its terms and as no others; or memory was refused; or
    // it reads as none, and the fault is true of it.
    ensures reading { let m = method_in space.now method.now in
        (tables : List (List ℕ)) → bytes.now ≡ span_of tables m → (es : List Entry) → StandsFor space.now es →
        IsReading (λ nodes. nodes_view nodes.items) unknown_zero es tables m result }
    // Which fault it is: the first that is met in reading forward.
    ensures forward { let m = method_in space.now method.now in
        (tables : List (List ℕ)) → bytes.now ≡ span_of tables m → (es : List Entry) → StandsFor space.now es →
        GivesBody (λ nodes. nodes_view nodes.items) unknown_zero es tables m result }
{
    let names = BodyNames::numbered(space, method.path, unknown_zero);
    body_terms(alloc, bytes, &names)
}

/// Tells a sink the terms that `read_span` reads, as lines of this level, piece by piece as they are read.
pub fn tell_span<S: Sink>(
    alloc: Global,
    bytes: &[u8],
    space: &Space,
    method: &Method,
    unknown_zero: bool,
    level: u32,
    sink: &mut S,
) -> Result<(), CodeFault>
    // The limit of a table.
    requires { length bytes.now ≤ 16777216 }

    // In whatever tables they are the method's body: it reads as terms and as no others, and these are told; or memory
    // was refused; or it reads as none, and the fault is true of it.
    ensures told { let m = method_in space.now method.now in
        OnOk result ((ts : Trees) × (ReadsBy unknown_zero space.now bytes.now m ts ×
        S.grew sink.old sink.new (line_pieces level ts))) }
    ensures fails { let m = method_in space.now method.now in
        IfErr result (λ fault. (tables : List (List ℕ)) → bytes.now ≡ span_of tables m →
        (es : List Entry) → StandsFor space.now es →
        IsReading (λ (read : Trees). read) unknown_zero es tables m (Err fault)) }
    // Which fault it is: the first that is met in reading forward.
    ensures forward { let m = method_in space.now method.now in
        IfErr result (λ fault. (tables : List (List ℕ)) → bytes.now ≡ span_of tables m →
        (es : List Entry) → StandsFor space.now es →
        GivesBody (λ (read : Trees). read) unknown_zero es tables m (Err fault)) }
{
    let names = BodyNames::numbered(space, method.path, unknown_zero);
    tell_terms(alloc, bytes, &names, level, sink)
}

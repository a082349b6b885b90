//! The names that stand in every namespace.
ghost use Rattle.std.specs.Prelude.{◌≡◌, [], ◌∷◌, List};
ghost use Rattle.std.specs.Option.{option_map};
ghost use Rattle.aml_names.specs.declared.segments.Seg.{Seg as AnySeg};
ghost use Rattle.aml_namespace.specs.Kinds.{kind_in};
ghost use Rattle.aml_namespace.specs.Predefined.{predefined, is_one_of};

use crate::ids::PathId;
use crate::kinds::Kind;
use aml_names::Seg;

const SCOPES: [Seg; 5] = [
    Seg(*b"_GPE"),
    Seg(*b"_PR_"),
    Seg(*b"_SB_"),
    Seg(*b"_SI_"),
    Seg(*b"_TZ_"),
];

const GLOBAL_LOCK: Seg = Seg(*b"_GL_");

const NAMES: [Seg; 2] = [Seg(*b"_OS_"), Seg(*b"_REV")];

const OSI: Seg = Seg(*b"_OSI");

/// The kind of a predefined path (ACPI 6.5, 5.3.1 and 5.7). It is no Alias's.
pub fn predefined_kind(path: &[Seg]) -> Option<Kind<PathId>>
    ensures { (paths : List (List AnySeg)) → option_map (kind_in paths) result ≡ predefined path.now }
{
    match path {
        [] => Some(Kind::Scope),
        [segment] => kind_of_segment(*segment),
        _ => None,
    }
}

/// That of a segment below the root.
fn kind_of_segment(segment: Seg) -> Option<Kind<PathId>>
    ensures { (paths : List (List AnySeg)) → option_map (kind_in paths) result ≡ predefined (segment ∷ []) }
{
    if is_scope(segment) {
        Some(Kind::Scope)
    } else if is_global_lock(segment) {
        Some(Kind::Mutex)
    } else if is_name(segment) {
        Some(Kind::Name)
    } else if is_osi(segment) {
        Some(Kind::Method { args: 1 })
    } else {
        None
    }
}

fn is_scope(segment: Seg) -> bool
    ensures { result ≡ is_one_of ("_GPE" ∷ "_PR_" ∷ "_SB_" ∷ "_SI_" ∷ "_TZ_" ∷ []) segment }
{
    SCOPES.contains(&segment)
}

fn is_global_lock(segment: Seg) -> bool
    ensures { result ≡ is_one_of ("_GL_" ∷ []) segment }
{
    segment == GLOBAL_LOCK
}

fn is_name(segment: Seg) -> bool
    ensures { result ≡ is_one_of ("_OS_" ∷ "_REV" ∷ []) segment }
{
    NAMES.contains(&segment)
}

fn is_osi(segment: Seg) -> bool
    ensures { result ≡ is_one_of ("_OSI" ∷ []) segment }
{
    segment == OSI
}

//! From a path to the unit of a field list.
ghost use Rattle.std.specs.Prelude.{◌≡◌, IfOk};
ghost use Rattle.std.specs.List.{find};
ghost use Rattle.aml_load.specs.Standings.{standing_view, standings_view};
ghost use Rattle.aml_namespace.specs.Known.{path_at};
ghost use Rattle.aml_walk.specs.Units.{is_unit, unit_in, unit_at};

use crate::fields::{FieldUnit, units_of};
use aml_code::{NoMemory, Path};
use aml_load::{StandingTerm, StandingTerms};
use aml_space::{Below, PathId, Space};
use std::alloc::Global;

/// A unit, and its term.
#[derive(Clone, Copy)]
pub struct UnitPlace {
    /// The place of its term among the terms, from 0 on.
    pub term: usize,
    pub unit: FieldUnit,
}

/// Whether a unit of a list in this scope has this path.
fn is_unit(space: &Space, scope: PathId, path: &Path, unit: FieldUnit) -> Result<bool, NoMemory>
    ensures { IfOk result (λ same. same ≡ is_unit (path_at space.now scope) path.now unit) }
{
    let own = space.to_path(&Below {
        above: scope,
        segs: &[unit.segment],
    })?;
    Ok(own == *path)
}

/// The first of these units that has this path.
fn first_unit(
    space: &Space,
    scope: PathId,
    path: &Path,
    units: &[FieldUnit],
) -> Result<Option<FieldUnit>, NoMemory>
    ensures { IfOk result (λ unit. unit ≡ find (is_unit (path_at space.now scope) path.now) units.now) }
{
    for unit in units {
        if is_unit(space, scope, path, *unit)? {
            return Ok(Some(*unit));
        }
    }
    Ok(None)
}

/// The first unit of a term that has this path.
fn unit_in(
    alloc: Global,
    space: &Space,
    term: &StandingTerm<'_>,
    path: &Path,
) -> Result<Option<FieldUnit>, NoMemory>
    ensures { IfOk result (λ unit. unit ≡ unit_in (standing_view space.now term.now) path.now) }
{
    let units = units_of(alloc, term.term)?;
    first_unit(space, term.scope(), path, units.as_slice())
}

/// The unit with this path of a Field, an IndexField or a BankField among these terms, as `standing_terms` gives them:
/// its term, its first bit and its number of bits. Of several units with one path it is the first.
pub fn unit_at(
    alloc: Global,
    standing: &StandingTerms<'_>,
    path: &Path,
) -> Result<Option<UnitPlace>, NoMemory>
    ensures { IfOk result (λ place. place
        ≡ unit_at 0 (standings_view standing.now.space standing.now.terms.items) path.now) }
{
    for number in 0..standing.terms.len() {
        if let Some(unit) = unit_in(alloc, &standing.space, &standing.terms[number], path)? {
            return Ok(Some(UnitPlace { term: number, unit }));
        }
    }
    Ok(None)
}

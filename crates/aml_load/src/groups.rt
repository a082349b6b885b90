//! Names outside the methods in groups of one scope.
ghost use Rattle.std.specs.Prelude.{◌≡◌, ◌++◌, ◌∷◌, [], ◌<◌, length, OnOk};
ghost use Rattle.aml_namespace.specs.Known.{Known, path_at};
ghost use Rattle.aml_load.specs.Groups.{AreKnown, named_in, uses_of};

use crate::used::Asked;
use aml_code::NoMemory;
use aml_space::PathId;
use std::alloc::Global;

/// Names that stand in one scope, each behind the other.
#[derive(Drop)]
pub struct Group {
    /// The scope, by its number in the space of the tables.
    pub scope: PathId,
    pub names: Vec<Asked>,
}

/// Adds names that stand in a scope: to the last group, where that is this scope's, or else as a group behind it.
fn add_group(groups: &mut Vec<Group>, scope: PathId, mut names: Vec<Asked>) -> Result<(), NoMemory>
    ensures added { (k : Known) → OnOk result
        (uses_of k groups.new.items ≡ uses_of k groups.old.items ++ named_in (path_at k scope) names.items) }
    ensures known { (k : Known) → scope < length k.paths → AreKnown k groups.old.items →
        OnOk result (AreKnown k groups.new.items) }
{
    if names.is_empty() {
        return Ok(());
    }
    if let Some(mut last) = groups.pop() {
        if last.scope.is(scope) {
            last.names.append(&mut names)?;
            groups.push(last)?;
            return Ok(());
        }
        groups.push(last)?;
    }
    // Where scopes take turns, most groups have one name.
    names.shrink_to_fit();
    groups.push(Group { scope, names })?;
    Ok(())
}

/// Adds a name that stands in a scope, as `add_group` does.
pub fn add_asked(
    alloc: Global,
    groups: &mut Vec<Group>,
    scope: PathId,
    asked: Asked,
) -> Result<(), NoMemory>
    ensures added { (k : Known) → OnOk result
        (uses_of k groups.new.items ≡ uses_of k groups.old.items ++ named_in (path_at k scope) (asked ∷ [])) }
    ensures known { (k : Known) → scope < length k.paths → AreKnown k groups.old.items →
        OnOk result (AreKnown k groups.new.items) }
{
    let mut names = Vec::with_capacity(alloc, 1)?;
    names.push(asked)?;
    add_group(groups, scope, names)
}

/// Adds groups behind others, in their order, and leaves none. Of the names of one term there is one.
pub fn add_groups(groups: &mut Vec<Group>, more: &mut Vec<Group>) -> Result<(), NoMemory>
    ensures added { (k : Known) → OnOk result
        (uses_of k groups.new.items ≡ uses_of k groups.old.items ++ uses_of k more.old.items) }
    ensures known { (k : Known) → AreKnown k more.old.items → AreKnown k groups.old.items →
        OnOk result (AreKnown k groups.new.items) }
    ensures none { OnOk result (more.new.items ≡ []) }
{
    let Some(last) = more.pop() else {
        return Ok(());
    };
    add_groups(groups, more)?;
    add_group(groups, last.scope, last.names)
}

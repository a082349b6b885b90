//! How many arguments a path takes.
ghost use Rattle.std.specs.Prelude.{◌≡◌, ◌<◌, ◌∷◌, ◌||◌, Some, None, cond, is_some, length, map, flat_map};
ghost use Rattle.std.specs.Prelude.{option_to_list, IfSome, IsTrue, ◌&&◌, not, nat_lt, false, List};
ghost use Rattle.aml_names.specs.declared.segments.Seg.{Seg as AnySeg};
ghost use Rattle.std.specs.List.{list_all, list_any};
ghost use Rattle.std.specs.Option.{option_map, option_or, option_and_then, option_copied};
ghost use Rattle.aml_namespace.specs.Namespace.{kind_at as kind_of_path, count_at, count_of_kind, target_count};
ghost use Rattle.aml_namespace.specs.Known.{namespace_in, outlook_in, kinds_by, sure_by};
ghost use Rattle.aml_namespace.specs.Runs.{target_counts, counts_by, opens_scope as opens_a_scope, is_alias};
ghost use Rattle.aml_namespace.specs.Runs.{is_open_alias as is_open_kind, open_among};
ghost use Rattle.aml_namespace.specs.Kinds.{target_in, kind_in};
ghost use Rattle.aml_space.specs.Nodes.{kinds_of, declared_of, outs_of, known_by, paths_in, said_in, kind_shown};
ghost use Rattle.aml_space.specs.Nodes.{IsIndex, path_of};
ghost use Rattle.aml_namespace.specs.Predefined.{predefined};
ghost use Rattle.aml_namespace.specs.Tallies.{joined, counts_in, own_count, is_nothing};

use crate::nodes::Node;
use crate::space_paths::numbered;
use crate::walking::{declared_at, kind_at, node_from, out_at, standing_at};
use aml_names::Path;
use aml_namespace::{Counts, Declarations, Kind, PathId, own_counts, predefined_kind};

/// The kind of a path: the declared one of its node, else the predefined one.
pub(crate) fn kind_met(
    nodes: &[Node],
    node: Option<usize>,
    standing: Option<Kind<PathId>>,
) -> Option<Kind<PathId>>
    requires { IfSome node (λ i. i < length nodes.now) }
    ensures { kind_shown nodes.now result
        ≡ option_or (option_and_then (kinds_of nodes.now) node) (kind_shown nodes.now standing) }
{
    match kind_at(nodes, node) {
        Some(kind) => Some(kind),
        None => standing,
    }
}

/// Whether a path has a kind, or an External names it, by its node and its predefined kind.
pub(crate) fn known_met(nodes: &[Node], node: Option<usize>, standing: Option<Kind<PathId>>) -> bool
    requires { IfSome node (λ i. i < length nodes.now) }
    ensures { result ≡ (is_some (option_or (option_and_then (kinds_of nodes.now) node) (kind_shown nodes.now standing))
        || is_some (option_and_then (outs_of nodes.now) node)) }
{
    kind_met(nodes, node, standing).is_some() || out_at(nodes, node).is_some()
}

/// How many arguments a path takes, by its node and its predefined kind.
pub(crate) fn count_met(
    nodes: &[Node],
    node: Option<usize>,
    standing: Option<Kind<PathId>>,
) -> Option<u8>
    requires index { IsIndex nodes.now }
    requires within { IfSome node (λ i. i < length nodes.now) }
    ensures { result
        ≡ count_of_kind (namespace_in (known_by nodes.now))
        (option_or (option_and_then (kinds_of nodes.now) node) (kind_shown nodes.now standing))
        (option_and_then (outs_of nodes.now) node) }
{
    match kind_met(nodes, node, standing) {
        None => out_at(nodes, node),
        Some(Kind::Method { args }) => Some(args),
        Some(Kind::Alias { target, .. }) => Some(count_target(nodes, target)),
        Some(_) => Some(0),
    }
}

/// How many arguments the target of an Alias takes.
fn count_target(nodes: &[Node], target: PathId) -> u8
    requires { IsIndex nodes.now }
    ensures { let known = namespace_in (known_by nodes.now) in let path = target_in (paths_in nodes.now) target in
        result ≡ target_count (kind_of_path known path) (known.outs path) }
{
    let node = numbered(nodes, target);
    let kind = kind_met(nodes, Some(node), standing_at(nodes, node));
    count_of_target(kind, out_at(nodes, Some(node)))
}

/// The arguments of what stands at the target of an Alias: a method's, none for another kind, else those of its
/// Externals.
fn count_of_target(kind: Option<Kind<PathId>>, out: Option<u8>) -> u8
    ensures { (paths : List (List AnySeg)) → result ≡ target_count (option_map (kind_in paths) kind) out }
{
    match kind {
        None => out.unwrap_or(0),
        Some(Kind::Method { args }) => args,
        Some(_) => 0,
    }
}

/// How many arguments a path takes.
pub(crate) fn count_of(nodes: &[Node], path: &Path) -> Option<u8>
    requires { IsIndex nodes.now }
    ensures { result ≡ count_at (namespace_in (known_by nodes.now)) path.now }
{
    let node = node_from(nodes, 0, path.segs());
    count_met(nodes, node, predefined_kind(path.segs()))
}

// ---- What may stand: the counts of all kinds of a path.

/// What the kinds of a path count as the target of an Alias, if it has any: there an Alias counts no argument.
fn targets_met(said: Option<&Declarations>, standing: Option<Kind<PathId>>) -> Counts
    ensures { result ≡ counts_in (map own_count (kinds_by (option_copied said.entry) standing)) }
{
    match said {
        None => own_counts(standing),
        Some(said) => with_standing(said, said.tally().counts, own_counts(standing)),
    }
}

/// What the declared kinds of a path come to, and the predefined one behind them unless one of them is sure.
fn with_standing(said: &Declarations, counts: Counts, standing: Counts) -> Counts
    ensures { result ≡ cond said.now.sure counts (joined counts standing) }
{
    if said.is_sure() {
        counts
    } else {
        counts.joined(standing)
    }
}

/// What stands at the target of an Alias counts, and without any kind what Externals say.
fn or_outside(counts: Counts, out: Option<u8>) -> Counts
    ensures { result ≡ cond (is_nothing counts) (Counts.One (target_count None out)) counts }
{
    match counts {
        Counts::Nothing => Counts::One(out.unwrap_or(0)),
        counts => counts,
    }
}

/// The predefined kind of a node's path, where what is declared leaves it standing.
fn standing_behind(nodes: &[Node], node: usize, said: Option<&Declarations>) -> Option<Kind<PathId>>
    requires index { IsIndex nodes.now }
    requires within { node < length nodes.now }
    ensures { (paths : List (List AnySeg)) → map (kind_in paths) (kinds_by (option_copied said.entry) result)
        ≡ kinds_by (option_map (said_in paths) (option_copied said.entry)) (predefined (path_of nodes.now node)) }
{
    if is_surely_declared(said) {
        None
    } else {
        standing_at(nodes, node)
    }
}

/// The counts of what may stand at the target of an Alias.
fn counts_of_target(nodes: &[Node], target: PathId) -> Counts
    requires { IsIndex nodes.now }
    ensures { let outlook = outlook_in (known_by nodes.now) in let path = target_in (paths_in nodes.now) target in
        result ≡ counts_in (target_counts (outlook.kinds path) (outlook.first.outs path)) }
{
    let node = numbered(nodes, target);
    let said = declared_at(nodes, Some(node));
    let counts = targets_met(said, standing_behind(nodes, node, said));
    or_outside(counts, out_at(nodes, Some(node)))
}

/// The counts of a kind: a method's own, an Alias's by its target. Those of an open Alias never agree.
fn counts_of_kind(nodes: &[Node], kind: Kind<PathId>) -> Counts
    requires { IsIndex nodes.now }
    ensures { result ≡ counts_in (counts_by (outlook_in (known_by nodes.now)) (kind_in (paths_in nodes.now) kind)) }
{
    match kind {
        Kind::Method { args } => Counts::One(args),
        Kind::Alias { is_open, target } => {
            if is_open {
                return Counts::Several;
            }
            counts_of_target(nodes, target)
        }
        _ => Counts::One(0),
    }
}

/// Whether both are Aliases of one target that are not open.
fn is_same_alias(last: Option<Kind<PathId>>, kind: Kind<PathId>) -> bool
    ensures { IsTrue result → last ≡ Some kind }
{
    match (last, kind) {
        (
            Some(
                Kind::Alias {
                    is_open: false,
                    target: met,
                },
            ),
            Kind::Alias {
                is_open: false,
                target,
            },
        ) => met.is(target),
        _ => false,
    }
}

/// Those of several kinds, behind others. Thousands may be Aliases of one target, which is looked up once.
fn counts_of_kinds(nodes: &[Node], first: Counts, kinds: &[Kind<PathId>]) -> Counts
    requires { IsIndex nodes.now }
    ensures { result ≡ joined first (counts_in (flat_map (counts_by (outlook_in (known_by nodes.now)))
        (map (kind_in (paths_in nodes.now)) kinds.now))) }
{
    let mut counts = first;
    let mut last: Option<Kind<PathId>> = None;
    for kind in kinds {
        if matches!(counts, Counts::Several) {
            return counts;
        }
        if !is_same_alias(last, *kind) {
            counts = counts.joined(counts_of_kind(nodes, *kind));
        }
        last = Some(*kind);
    }
    counts
}

/// The counts of the declared kinds of a path. Each kind is looked at only where an Alias is among them.
fn counts_of_all(nodes: &[Node], said: &Declarations) -> Counts
    requires { IsIndex nodes.now }
    ensures { let seen = said_in (paths_in nodes.now) said.now in
        result ≡ counts_in (flat_map (counts_by (outlook_in (known_by nodes.now))) (seen.kind ∷ seen.others)) }
{
    let tally = said.tally();
    if !tally.aliased {
        return tally.counts;
    }
    let first = counts_of_kind(nodes, said.kind());
    counts_of_kinds(nodes, first, said.others())
}

/// The counts of a predefined kind, if there is one.
fn counts_standing(nodes: &[Node], standing: Option<Kind<PathId>>) -> Counts
    requires { IsIndex nodes.now }
    ensures { result ≡ counts_in (flat_map (counts_by (outlook_in (known_by nodes.now)))
        (option_to_list (kind_shown nodes.now standing))) }
{
    match standing {
        None => Counts::Nothing,
        Some(kind) => counts_of_kind(nodes, kind),
    }
}

/// The counts of all kinds that a path may have, by its node and its predefined kind.
pub(crate) fn counts_met(
    nodes: &[Node],
    node: Option<usize>,
    standing: Option<Kind<PathId>>,
) -> Counts
    requires index { IsIndex nodes.now }
    requires within { IfSome node (λ i. i < length nodes.now) }
    ensures { result ≡ counts_in (flat_map (counts_by (outlook_in (known_by nodes.now)))
        (kinds_by (option_and_then (declared_of nodes.now) node) (kind_shown nodes.now standing))) }
{
    let standing = counts_standing(nodes, standing);
    match declared_at(nodes, node) {
        None => standing,
        Some(said) => with_standing(said, counts_of_all(nodes, said), standing),
    }
}

/// Whether a path has a kind in every run, by its node and its predefined kind.
pub(crate) fn sure_met(nodes: &[Node], node: Option<usize>, standing: Option<Kind<PathId>>) -> bool
    requires { IfSome node (λ i. i < length nodes.now) }
    ensures { result ≡ sure_by (option_and_then (declared_of nodes.now) node) (kind_shown nodes.now standing) }
{
    standing.is_some() || is_surely_declared(declared_at(nodes, node))
}

/// Whether a Scope may open a path in every run, by its node and its predefined kind.
pub(crate) fn scope_met(nodes: &[Node], node: Option<usize>, standing: Option<Kind<PathId>>) -> bool
    requires { IfSome node (λ i. i < length nodes.now) }
    ensures { let said = option_and_then (declared_of nodes.now) node in let other = kind_shown nodes.now standing in
        result ≡ (sure_by said other && list_all opens_a_scope (kinds_by said other)) }
{
    match declared_at(nodes, node) {
        None => stands_as_scope(standing),
        Some(said) => said.tally().scopes && (said.is_sure() || stands_as_scope(standing)),
    }
}

/// Whether a predefined kind is a scope's, if there is one.
fn stands_as_scope(standing: Option<Kind<PathId>>) -> bool
    ensures { result ≡ (is_some standing && list_all opens_a_scope (option_to_list standing)) }
{
    match standing {
        None => false,
        Some(kind) => kind.opens_scope(),
    }
}

/// Whether an Alias of a path is open, by the path's node and its predefined kind, which is no Alias.
pub(crate) fn open_met(nodes: &[Node], node: Option<usize>, standing: Option<Kind<PathId>>) -> bool
    requires within { IfSome node (λ i. i < length nodes.now) }
    requires standing { IfSome standing (λ kind. is_alias kind ≡ false) }
    ensures { result ≡ open_among (kinds_by (option_and_then (declared_of nodes.now) node)
        (kind_shown nodes.now standing)) }
{
    match declared_at(nodes, node) {
        None => false,
        Some(said) => is_open_by(said, standing.is_some()),
    }
}

/// The same by what a path's declarations say, and whether it is predefined.
fn is_open_by(said: &Declarations, standing: bool) -> bool
    ensures { result ≡ (list_any is_alias (said.now.kind ∷ said.now.others) && (is_open_kind said.now.kind
        || (nat_lt 0 (length said.now.others) || (not said.now.sure && standing)))) }
{
    let others = 0 < said.others().len() || (!said.is_sure() && standing);
    said.tally().aliased && (said.kind().is_open_alias() || others)
}

fn is_surely_declared(said: Option<&Declarations>) -> bool
    ensures { result ≡ sure_by (option_copied said.entry) None }
{
    match said {
        None => false,
        Some(said) => said.is_sure(),
    }
}

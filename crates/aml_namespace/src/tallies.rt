//! What the counts of several kinds come to.
ghost use Rattle.std.specs.Prelude.{◌≡◌, ◌∷◌, ◌++◌, [], map, List, ℕ, option_to_list};
ghost use Rattle.aml_namespace.specs.declared.kinds.Kind.{Kind as KindOf};
ghost use Rattle.aml_namespace.specs.Tallies.{joined, counts_in, own_count as own, tally_of};

use crate::ids::PathId;
use crate::kinds::Kind;

/// Whether there are counts, and whether they are all the same.
#[derive(Clone, Copy)]
pub enum Counts {
    Nothing,
    One(u8),
    Several,
}

impl Counts {
    /// What these and others come to.
    pub fn joined(self, others: Counts) -> Counts
        ensures { result ≡ joined self others }
    {
        match (self, others) {
            (Counts::Nothing, counts) => counts,
            (Counts::Several, _) => Counts::Several,
            (counts, Counts::Nothing) => counts,
            (Counts::One(one), Counts::One(other)) => same_or_several(one, other),
            (Counts::One(_), Counts::Several) => Counts::Several,
        }
    }
}

/// What two counts come to.
fn same_or_several(one: u8, other: u8) -> Counts
    ensures { result ≡ joined (Counts.One one) (Counts.One other) }
{
    if other == one {
        Counts::One(one)
    } else {
        Counts::Several
    }
}

/// What the own counts of some kinds come to, whether an Alias is among them, and whether a Scope may open each.
#[derive(Clone, Copy)]
pub struct Tally {
    pub counts: Counts,
    pub aliased: bool,
    pub scopes: bool,
}

impl Tally {
    /// That of one kind.
    pub fn of(kind: &Kind<PathId>) -> Tally
        ensures { result ≡ tally_of (kind.now ∷ []) }
    {
        Tally {
            counts: Counts::One(kind.own_count()),
            aliased: kind.is_alias(),
            scopes: kind.opens_scope(),
        }
    }

    /// That of one kind more.
    #[tactic(auto, using(crate::proofs::Joined::tally_more))]
    pub fn with(self, kind: &Kind<PathId>) -> Tally
        ensures { (kinds : List (KindOf ℕ)) → self ≡ tally_of kinds → result ≡ tally_of (kinds ++ kind.now ∷ []) }
    {
        Tally {
            counts: self.counts.joined(Counts::One(kind.own_count())),
            aliased: self.aliased || kind.is_alias(),
            scopes: self.scopes && kind.opens_scope(),
        }
    }
}

/// What the own count of a kind comes to, if there is one.
pub fn own_counts(kind: Option<Kind<PathId>>) -> Counts
    ensures { result ≡ counts_in (map own (option_to_list kind)) }
{
    match kind {
        None => Counts::Nothing,
        Some(kind) => Counts::One(kind.own_count()),
    }
}

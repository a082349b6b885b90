//! Scopes in the index, and what a name of one segment means in them.
ghost use Rattle.std.specs.Prelude.{◌&&◌, not, [], get_or, ◌≡◌, true, false, ◌+◌, ◌-◌, ◌<◌, ◌≤◌, ◌++◌, cond, length};
ghost use Rattle.std.specs.Prelude.{take, Some, None, is_some, IfOk, IfSome, List};
ghost use Rattle.std.specs.List.{find};
ghost use Rattle.std.specs.Option.{option_or, option_and_then, option_map};
ghost use Rattle.aml_names.specs.declared.segments.Seg.{Seg as AnySeg};
ghost use Rattle.aml_names.specs.Names.{placed};
ghost use Rattle.aml_names.specs.Searching.{upward};
ghost use Rattle.aml_namespace.specs.Predefined.{predefined};
ghost use Rattle.aml_namespace.specs.Kinds.{kind_in};
ghost use Rattle.aml_namespace.specs.Namespace.{first_of, first_count, kind_at as kind_of_path};
ghost use Rattle.aml_children.specs.Numbered.{walk};
ghost use Rattle.aml_space.specs.Nodes.{path_of, path_by, kids_of, outs_of, IsIndex, IsReach};
ghost use Rattle.aml_namespace.specs.Runs.{counts_met as met, counts_of, is_known};
ghost use Rattle.aml_namespace.specs.Tallies.{counts_in};
ghost use Rattle.aml_space.specs.Candidates.{path_in, path_at, names_of, outlook_at, aside_in, AreAbove, AreWays};
ghost use Rattle.aml_space.specs.Candidates.{IsLevel, IsScope, IsNextWith, IsCandidate};
ghost use Rattle.aml_namespace.specs.Searching.{local_from, agreed_among, above};

use crate::counting::{counts_met, kind_met, known_met, sure_met};
use crate::growing::Reach;
use crate::nodes::Node;
use crate::parents::{depth_at, link};
use crate::seen::{NoLocals, Seen};
use crate::walking::{Aside, aside_at, child, node_from, out_at};
use crate::ways::{Ways, step_from};
use aml_names::{Name, NoMemory, Path, Seg};
use aml_namespace::{Counts, Kind, PathId, predefined_kind};
use std::alloc::Global;

/// So many levels are looked at one by one before the order of segments is asked, which takes as long.
pub(crate) const NEAR: usize = 8;

/// A scope, with the way up from it.
#[derive(Drop)]
pub(crate) struct Scope<'a> {
    pub nodes: &'a [Node],
    pub ways: &'a Ways,
    /// The last level of its path that stands in the index.
    pub last: Level,
    /// The segments of the path behind that.
    pub beyond: &'a [Seg],
    /// How many segments the path has.
    pub len: usize,
}

/// The scope's path or a parent of it, which stands in the index.
#[derive(Clone, Copy)]
pub(crate) struct Level {
    pub node: usize,
    /// How many segments of the scope lead there.
    pub depth: usize,
}

/// A path that a name of one segment may mean in a scope.
#[derive(Clone, Copy)]
pub(crate) struct Candidate {
    /// How many segments of the scope stand before the name's.
    pub depth: usize,
    /// The path's node, if it has one.
    pub node: Option<usize>,
    /// Whether the path is one of the locals, whose node isn't looked for.
    pub local: bool,
}

impl<'a> Scope<'a> {
    /// By how far the path leads in the index.
    pub(crate) fn new(nodes: &'a [Node], ways: &'a Ways, reach: Reach<'a>) -> Scope<'a>
        requires index { IsIndex nodes.now }
        requires ways { AreWays nodes.now ways.now }
        requires reach { IsReach nodes.now reach }
        ensures scope { IsScope result }
        ensures nodes { result.nodes.now ≡ nodes.now }
        ensures path { path_in result ≡ path_by nodes.now reach.entry }
    {
        let depth = depth_at(nodes, reach.node) as usize;
        Scope {
            nodes,
            ways,
            last: Level {
                node: reach.node,
                depth,
            },
            beyond: reach.left,
            len: depth + reach.left.len(),
        }
    }

    /// The path of a node.
    pub(crate) fn at(nodes: &'a [Node], ways: &'a Ways, node: usize) -> Scope<'a>
        requires index { IsIndex nodes.now }
        requires ways { AreWays nodes.now ways.now }
        requires within { node < length nodes.now }
        ensures scope { IsScope result }
        ensures nodes { result.nodes.now ≡ nodes.now }
        ensures path { path_in result ≡ path_of nodes.now node }
        ensures whole { result.last.depth ≡ length (path_in result) }
    {
        let depth = depth_at(nodes, node) as usize;
        Scope {
            nodes,
            ways,
            last: Level { node, depth },
            beyond: &[],
            len: depth,
        }
    }

    /// The same once more.
    pub(crate) fn again(&self) -> Scope<'a>
        requires { IsScope self.now }
        ensures scope { IsScope result }
        ensures nodes { result.nodes.now ≡ self.now.nodes.now }
        ensures path { path_in result ≡ path_in self.now }
    {
        Scope {
            nodes: self.nodes,
            ways: self.ways,
            last: self.last,
            beyond: self.beyond,
            len: self.len,
        }
    }

    /// Its path, made anew.
    pub(crate) fn to_path(&self, alloc: Global) -> Result<Path, NoMemory>
        requires { IsScope self.now }
        ensures { IfOk result (λ path. path ≡ path_in self.now) }
    {
        let mut segs = Vec::with_capacity(alloc, self.depth())?;
        for place in 0..self.depth() {
            segs.push(self.segment_at(place))?;
        }
        Ok(Path::from_segs(segs))
    }

    /// How many segments of it stand before a name's own where the name leads without a search, as `front_of` of
    /// aml_names gives it.
    pub(crate) fn front_of(&self, name: &Name) -> Option<usize>
        requires { IsScope self.now }
        ensures placed { placed (path_in self.now) name.now
            ≡ option_map (λ front. take front (path_in self.now) ++ name.now.segs) result }
        ensures within { IfSome result (λ front. front ≤ length (path_in self.now)) }
    {
        if name.root {
            return Some(0);
        }
        self.depth().checked_sub(name.ups as usize)
    }

    /// How many segments its path has.
    pub(crate) fn depth(&self) -> usize
        requires { IsScope self.now }
        ensures { result ≡ length (path_in self.now) }
    {
        self.len
    }

    /// The segment of its path at a place.
    pub(crate) fn segment_at(&self, place: usize) -> Seg
        requires scope { IsScope self.now }
        requires within { place < length (path_in self.now) }
        ensures { result ≡ get_or (path_in self.now) place (record { 0 = [] }) }
    {
        if place < self.last.depth {
            let (_, seg) = link(self.nodes, self.level_at(place + 1).node);
            seg
        } else {
            segment_of(self.beyond, place - self.last.depth)
        }
    }

    /// A front of the path that stands in the index.
    fn level_at(&self, depth: usize) -> Level
        requires scope { IsScope self.now }
        requires within { depth ≤ self.now.last.depth }
        ensures level { IsLevel self.now result }
        ensures depth { result.depth ≡ depth }
    {
        let mut level = self.last;
        'steps: while level.depth > depth {
            level = self.step_to(level, depth);
        }
        level
    }

    /// A level further up, but not above a depth: by a step, or the next one.
    fn step_to(&self, level: Level, depth: usize) -> Level
        requires scope { IsScope self.now }
        requires level { IsLevel self.now level }
        requires deep { depth < level.depth }
        ensures level { IsLevel self.now result }
        ensures within { depth ≤ result.depth }
        ensures higher { result.depth < level.depth }
    {
        let over = self.over(level);
        if depth <= over.depth && over.depth < level.depth {
            over
        } else {
            self.above(level)
        }
    }

    /// The next level up.
    fn above(&self, level: Level) -> Level
        requires scope { IsScope self.now }
        requires level { IsLevel self.now level }
        requires deep { 0 < level.depth }
        ensures level { IsLevel self.now result }
        ensures depth { result.depth + 1 ≡ level.depth }
    {
        let (parent, _) = link(self.nodes, level.node);
        Level {
            node: parent,
            depth: level.depth - 1,
        }
    }

    /// The level to which the step from one leads, or itself where none is kept.
    fn over(&self, level: Level) -> Level
        requires scope { IsScope self.now }
        requires level { IsLevel self.now level }
        ensures { IsLevel self.now result }
    {
        let node = step_from(self.ways.steps.as_slice(), level.node);
        Level {
            node,
            depth: depth_at(self.nodes, node) as usize,
        }
    }

    /// A level further up, by a step, or the next one. It passes over none whose node has a number up to a floor.
    fn step(&self, level: Level, floor: usize) -> Level
        requires scope { IsScope self.now }
        requires level { IsLevel self.now level }
        requires deep { 0 < level.depth }
        requires high { floor < level.node }
        ensures level { IsLevel self.now result }
        ensures higher { result.depth < level.depth }
        ensures above { AreAbove self.now floor result.depth level.depth }
    {
        let over = self.over(level);
        if floor <= over.node && over.depth < level.depth {
            over
        } else {
            self.above(level)
        }
    }

    /// The nearest level from this one up whose node isn't above a floor.
    fn up_to(&self, level: Level, floor: usize) -> Level
        requires scope { IsScope self.now }
        requires level { IsLevel self.now level }
        ensures level { IsLevel self.now result }
        ensures higher { result.depth ≤ level.depth }
        ensures above { AreAbove self.now floor result.depth level.depth }
    {
        let mut at = level;
        'steps: while at.depth > 0 && floor < at.node {
            at = self.step(at, floor);
        }
        at
    }

    /// The nearest level from this one up that may have a child by a segment: by the order of numbers, where it is kept
    /// of all nodes.
    fn skip(&self, segment: &[Seg], level: Level) -> Level
        requires scope { IsScope self.now }
        requires level { IsLevel self.now level }
        requires one { length segment.now ≡ 1 }
        ensures { IsNextWith self.now segment.now level.depth result }
    {
        if self.ways.steps.len() < self.nodes.len() {
            return level;
        }
        match self.ways.edges.before(segment[0], level.node) {
            None => Level { node: 0, depth: 0 },
            Some(floor) => self.up_to(level, floor),
        }
    }

    /// A level above one, of which so many were looked at before. The more there were, the later the order is asked
    /// again, so that a way on which it never helps takes no longer.
    fn next_above(&self, segment: &[Seg], level: Level, looks: usize) -> Level
        requires scope { IsScope self.now }
        requires level { IsLevel self.now level }
        requires one { length segment.now ≡ 1 }
        requires deep { 0 < level.depth }
        ensures { IsNextWith self.now segment.now (level.depth - 1) result }
    {
        let above = self.above(level);
        if looks < NEAR || looks & (looks - 1) != 0 {
            above
        } else {
            self.skip(segment, above)
        }
    }

    /// The nearest level from this one up that has a child by a segment, else the root's.
    fn next_with(&self, segment: &[Seg], level: Level) -> Level
        requires scope { IsScope self.now }
        requires level { IsLevel self.now level }
        requires one { length segment.now ≡ 1 }
        ensures { IsNextWith self.now segment.now level.depth result }
    {
        let mut at = level;
        let mut looks: usize = 0;
        while at.depth > 0 && self.node_at(segment, at).is_none() {
            at = self.next_above(segment, at, looks);
            looks = looks.saturating_add(1);
        }
        at
    }

    /// The first such level, from the scope up. Nothing is known of the segment further down.
    pub(crate) fn first_with(&self, segment: &[Seg]) -> Level
        requires scope { IsScope self.now }
        requires one { length segment.now ≡ 1 }
        ensures { IsNextWith self.now segment.now (length (path_in self.now)) result }
    {
        self.next_with(segment, self.last)
    }

    /// The next one, above a level.
    fn with_above(&self, segment: &[Seg], level: Level) -> Level
        requires scope { IsScope self.now }
        requires level { IsLevel self.now level }
        requires one { length segment.now ≡ 1 }
        requires deep { 0 < level.depth }
        ensures { IsNextWith self.now segment.now (level.depth - 1) result }
    {
        let above = self.above(level);
        self.next_with(segment, above)
    }

    /// Each candidate is a child of one of the scope's nodes. The first one that decides is meant, else the first one
    /// that an External names. `first`: the first level that has such a child.
    pub(crate) fn search<L: Seen>(
        &self,
        locals: &L,
        first: Level,
        segment: &[Seg],
    ) -> Result<Option<Candidate>, NoMemory>
        requires scope { IsScope self.now }
        requires seen { L.fits locals.now (path_in self.now) }
        requires first { IsNextWith self.now segment.now (length (path_in self.now)) first }
        requires one { length segment.now ≡ 1 }
        ensures found { IfOk result (λ met. option_map (path_at (path_in self.now) segment.now) met
            ≡ first_of (names_of self.now) (L.paths locals.now)
            (upward (length (path_in self.now)) (path_in self.now) segment.now)) }
        ensures met { IfOk result
            (λ met. IfSome met (IsCandidate self.now.nodes.now (L.paths locals.now) (path_in self.now) segment.now)) }
    {
        let nearest = locals.nearest(segment[0])?;
        let mut outside: Option<Candidate> = None;
        let mut level = first;
        'levels: loop {
            if let Some(local) = nearer(nearest, level.depth) {
                return Ok(Some(Candidate {
                    depth: local,
                    node: None,
                    local: true,
                }));
            }
            let here = Candidate {
                depth: level.depth,
                node: self.node_at(segment, level),
                local: false,
            };
            if self.has_kind(segment, here) {
                return Ok(Some(here));
            }
            outside = self.first_outside(outside, here);
            if level.depth == 0 {
                return Ok(outside);
            }
            level = self.with_above(segment, level);
        }
    }

    /// The node of a segment at a level.
    fn node_at(&self, segment: &[Seg], level: Level) -> Option<usize>
        requires scope { IsScope self.now }
        requires level { IsLevel self.now level }
        requires one { length segment.now ≡ 1 }
        ensures node { result ≡ walk (kids_of self.now.nodes.now) 0 (take level.depth (path_in self.now)
            ++ segment.now) }
        ensures inside { IfSome result (λ at. at < length self.now.nodes.now) }
    {
        child(self.nodes, level.node, segment[0])
    }

    /// The candidate to which a segment leads whatever runs: the first that has a kind, unless a run may be without it
    /// and another one further up is known; else the first that an External names.
    pub(crate) fn lead(&self, segment: &[Seg]) -> Result<Option<Candidate>, NoMemory>
        requires scope { IsScope self.now }
        requires one { length segment.now ≡ 1 }
        ensures led { IfOk result (λ met. option_map (path_at (path_in self.now) segment.now) met
            ≡ agreed_among (outlook_at self.now)
            (upward (length (path_in self.now)) (path_in self.now) segment.now)) }
        ensures within { IfOk result (λ met. IfSome met (λ c. c.depth ≤ length (path_in self.now))) }
    {
        let first = self.first_with(segment);
        match self.search(&NoLocals, first, segment)? {
            None => Ok(None),
            Some(here) => {
                if self.may_lead_further(segment, here) {
                    Ok(None)
                } else {
                    Ok(Some(here))
                }
            }
        }
    }

    /// Whether a run may be without a candidate that has a kind, and another one further up is known.
    fn may_lead_further(&self, segment: &[Seg], here: Candidate) -> bool
        requires scope { IsScope self.now }
        requires one { length segment.now ≡ 1 }
        requires within { here.depth ≤ length (path_in self.now) }
        requires node { here.node ≡ walk (kids_of self.now.nodes.now) 0 (take here.depth (path_in self.now)
            ++ segment.now) }
        ensures { let path = take here.depth (path_in self.now) ++ segment.now in result
            ≡ (is_some (kind_of_path (names_of self.now) path) && (not ((outlook_at self.now).sure path)
            && is_some (find (is_known (names_of self.now)) (above (path_in self.now) segment.now here.depth)))) }
    {
        self.has_kind(segment, here)
            && !self.is_sure(segment, here)
            && self.is_known_above(segment, here.depth)
    }

    /// Whether a candidate has a kind.
    fn has_kind(&self, segment: &[Seg], here: Candidate) -> bool
        requires scope { IsScope self.now }
        requires one { length segment.now ≡ 1 }
        requires within { here.depth ≤ length (path_in self.now) }
        requires node { here.node ≡ walk (kids_of self.now.nodes.now) 0 (take here.depth (path_in self.now)
            ++ segment.now) }
        ensures { result
            ≡ is_some (kind_of_path (names_of self.now) (take here.depth (path_in self.now) ++ segment.now)) }
    {
        kind_met(self.nodes, here.node, self.standing(segment, here.depth)).is_some()
    }

    /// The first level above a depth that has a child by a segment, else the root's.
    fn with_below(&self, segment: &[Seg], depth: usize) -> Level
        requires scope { IsScope self.now }
        requires one { length segment.now ≡ 1 }
        requires deep { 0 < depth }
        requires within { depth ≤ length (path_in self.now) }
        ensures { IsNextWith self.now segment.now (depth - 1) result }
    {
        let mut level = self.first_with(segment);
        while level.depth >= depth {
            level = self.with_above(segment, level);
        }
        level
    }

    /// Whether a candidate further up than a depth has a kind, or an External names it.
    fn is_known_above(&self, segment: &[Seg], below: usize) -> bool
        requires scope { IsScope self.now }
        requires one { length segment.now ≡ 1 }
        requires within { below ≤ length (path_in self.now) }
        ensures { result
            ≡ is_some (find (is_known (names_of self.now)) (above (path_in self.now) segment.now below)) }
    {
        if below == 0 {
            return false;
        }
        let mut level = self.with_below(segment, below);
        'levels: loop {
            if self.is_known_at(segment, level) {
                return true;
            }
            if level.depth == 0 {
                return false;
            }
            level = self.with_above(segment, level);
        }
    }

    /// Whether a candidate has a kind, or an External names it.
    fn is_known_at(&self, segment: &[Seg], level: Level) -> bool
        requires scope { IsScope self.now }
        requires level { IsLevel self.now level }
        requires one { length segment.now ≡ 1 }
        ensures { result ≡ is_known (names_of self.now) (take level.depth (path_in self.now) ++ segment.now) }
    {
        let node = self.node_at(segment, level);
        known_met(self.nodes, node, self.standing(segment, level.depth))
    }

    /// The node of a front of the path, if it stands in the index.
    fn front_node(&self, depth: usize) -> Option<usize>
        requires scope { IsScope self.now }
        requires within { depth ≤ length (path_in self.now) }
        ensures { result ≡ walk (kids_of self.now.nodes.now) 0 (take depth (path_in self.now)) }
    {
        if depth > self.last.depth {
            return None;
        }
        Some(self.node_above(depth))
    }

    /// The same of one that does.
    pub(crate) fn node_above(&self, depth: usize) -> usize
        requires scope { IsScope self.now }
        requires within { depth ≤ self.now.last.depth }
        ensures { walk (kids_of self.now.nodes.now) 0 (take depth (path_in self.now)) ≡ Some result }
    {
        // Names from the root on may stand far below it.
        if depth == 0 {
            0
        } else {
            self.level_at(depth).node
        }
    }

    /// The node of some segments behind a front of the scope's path.
    pub(crate) fn node_below(&self, depth: usize, segs: &[Seg]) -> Option<usize>
        requires scope { IsScope self.now }
        requires within { depth ≤ length (path_in self.now) }
        ensures node { result ≡ walk (kids_of self.now.nodes.now) 0 (take depth (path_in self.now) ++ segs.now) }
        ensures inside { IfSome result (λ at. at < length self.now.nodes.now) }
    {
        let front = self.front_node(depth)?;
        node_from(self.nodes, front, segs)
    }

    /// The predefined kind of a candidate.
    fn standing(&self, segment: &[Seg], depth: usize) -> Option<Kind<PathId>>
        requires one { length segment.now ≡ 1 }
        requires within { depth ≤ length (path_in self.now) }
        ensures { (paths : List (List AnySeg)) →
            option_map (kind_in paths) result ≡ predefined (take depth (path_in self.now) ++ segment.now) }
    {
        if depth == 0 {
            predefined_kind(segment)
        } else {
            None
        }
    }

    /// The predefined kind of some segments behind a front of the scope's path.
    pub(crate) fn standing_below(&self, depth: usize, segs: &[Seg]) -> Option<Kind<PathId>>
        requires scope { IsScope self.now }
        requires within { depth ≤ length (path_in self.now) }
        ensures { (paths : List (List AnySeg)) →
            option_map (kind_in paths) result ≡ predefined (take depth (path_in self.now) ++ segs.now) }
    {
        if depth == 0 {
            return predefined_kind(segs);
        }
        if depth == 1 {
            return self.standing_first(segs);
        }
        None
    }

    /// That of some segments behind the first of its path.
    fn standing_first(&self, segs: &[Seg]) -> Option<Kind<PathId>>
        requires scope { IsScope self.now }
        requires within { 0 < length (path_in self.now) }
        ensures { (paths : List (List AnySeg)) →
            option_map (kind_in paths) result ≡ predefined (take 1 (path_in self.now) ++ segs.now) }
    {
        if segs.is_empty() {
            predefined_kind(&[self.segment_at(0)])
        } else {
            None
        }
    }

    /// The first candidate that an External names, from what was met so far and one more.
    fn first_outside(&self, outside: Option<Candidate>, here: Candidate) -> Option<Candidate>
        requires { IfSome here.node (λ i. i < length self.now.nodes.now) }
        ensures { result
            ≡ option_or outside
            (cond (is_some (option_and_then (outs_of self.now.nodes.now) here.node)) (Some here) None) }
    {
        match outside {
            Some(found) => Some(found),
            None => {
                if out_at(self.nodes, here.node).is_some() {
                    Some(here)
                } else {
                    None
                }
            }
        }
    }

    /// The counts of all that a segment may mean: of each candidate up to and with the first that is one of the locals,
    /// whose count is 0, or has a kind in every run. `first`: the first level that has a child by the segment.
    pub(crate) fn counts<L: Seen>(
        &self,
        locals: &L,
        first: Level,
        segment: &[Seg],
    ) -> Result<Counts, NoMemory>
        requires scope { IsScope self.now }
        requires seen { L.fits locals.now (path_in self.now) }
        requires first { IsNextWith self.now segment.now (length (path_in self.now)) first }
        requires one { length segment.now ≡ 1 }
        ensures { IfOk result (λ counts. counts ≡ counts_in (met (outlook_at self.now) (L.paths locals.now)
            (upward (length (path_in self.now)) (path_in self.now) segment.now))) }
    {
        let nearest = locals.nearest(segment[0])?;
        let mut counts = Counts::Nothing;
        let mut level = first;
        'levels: loop {
            if nearer(nearest, level.depth).is_some() {
                return Ok(counts.joined(Counts::One(0)));
            }
            let (here, sure) = self.counts_at(segment, level);
            counts = counts.joined(here);
            if level.depth == 0 {
                return Ok(counts);
            }
            if sure {
                return Ok(counts);
            }
            level = self.with_above(segment, level);
        }
    }

    /// The counts of all kinds that a candidate may have, and whether it has one in every run.
    fn counts_at(&self, segment: &[Seg], level: Level) -> (Counts, bool)
        requires scope { IsScope self.now }
        requires level { IsLevel self.now level }
        requires one { length segment.now ≡ 1 }
        ensures counts { result.0
            ≡ counts_in (counts_of (outlook_at self.now) (take level.depth (path_in self.now) ++ segment.now)) }
        ensures sure { result.1 ≡ (outlook_at self.now).sure (take level.depth (path_in self.now) ++ segment.now) }
    {
        let node = self.node_at(segment, level);
        let counts = counts_met(self.nodes, node, self.standing(segment, level.depth));
        (
            counts,
            sure_met(self.nodes, node, self.standing(segment, level.depth)),
        )
    }

    /// Whether a candidate has a kind in every run.
    fn is_sure(&self, segment: &[Seg], here: Candidate) -> bool
        requires scope { IsScope self.now }
        requires one { length segment.now ≡ 1 }
        requires within { here.depth ≤ length (path_in self.now) }
        requires node { here.node ≡ walk (kids_of self.now.nodes.now) 0 (take here.depth (path_in self.now)
            ++ segment.now) }
        ensures { result ≡ (outlook_at self.now).sure (take here.depth (path_in self.now) ++ segment.now) }
    {
        sure_met(self.nodes, here.node, self.standing(segment, here.depth))
    }

    /// The count that stands beside the declarations of the first candidate of a segment that has one. `first`: the first
    /// level that has a child by the segment.
    pub(crate) fn first_count(&self, aside: Aside, first: Level, segment: &[Seg]) -> Option<u8>
        requires scope { IsScope self.now }
        requires first { IsNextWith self.now segment.now (length (path_in self.now)) first }
        requires one { length segment.now ≡ 1 }
        ensures { result ≡ first_count (aside_in aside (names_of self.now))
            (upward (length (path_in self.now)) (path_in self.now) segment.now) }
    {
        let mut level = first;
        'levels: loop {
            let node = self.node_at(segment, level);
            if let Some(count) = aside_at(self.nodes, node, aside) {
                return Some(count);
            }
            if level.depth == 0 {
                return None;
            }
            level = self.with_above(segment, level);
        }
    }
}

/// The segment at a place.
fn segment_of(segs: &[Seg], place: usize) -> Seg
    requires { place < length segs.now }
    ensures { result ≡ get_or segs.now place (record { 0 = [] }) }
{
    segs[place]
}

/// The nearest local, where it stands at this depth or further down.
fn nearer(nearest: Option<usize>, depth: usize) -> Option<usize>
    ensures { result ≡ local_from nearest depth }
{
    match nearest {
        Some(local) if depth <= local => Some(local),
        _ => None,
    }
}

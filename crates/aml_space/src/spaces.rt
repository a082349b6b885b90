//! The namespace that tables make.
ghost use Rattle.std.specs.Prelude.{◌≡◌, ◌<◌, ◌≤◌, ◌*◌, length, slice_get, [], ◌∷◌, ◌++◌, List, Option, true, false};
ghost use Rattle.std.specs.Prelude.{is_some, not, cond, take, Ok, ◌-◌};
ghost use Rattle.std.specs.Prelude.{map as map_list, ◌⊎◌, OnOk, OnErr, IfOk, IfErr, IfSome, IsTrue};
ghost use Rattle.std.specs.Option.{option_map};
ghost use Rattle.std.specs.FinMap as map;
ghost use Rattle.aml_namespace.specs.Namespace.{Entry, Body, declares, external as outside, given as said};
ghost use Rattle.aml_namespace.specs.Namespace.{kind_at, count_at, namespace_of, declared_at, target_by};
ghost use Rattle.aml_namespace.specs.Runs.{outlook_of, sure_at, scope_in, open_in};
ghost use Rattle.aml_space.specs.Nodes.{known_by, paths_in};
ghost use Rattle.aml_namespace.specs.Known.{Grows, StandsAt, path_at, of_paths, StandsFor, nothing_known, once};
ghost use Rattle.aml_namespace.specs.Known.{with_declaration, with_declared, with_again, with_external, with_given};
ghost use Rattle.aml_namespace.specs.Known.{is_declared as declared_yet, namespace_in, outlook_in, row_of, AreRows};
ghost use Rattle.aml_space.specs.Below.{path_below, path_behind};
ghost use Rattle.aml_names.specs.Names.{placed};
ghost use Rattle.aml_namespace.specs.Kinds.{kind_in, IsAmong};
ghost use Rattle.aml_space.specs.Candidates.{path_in, names_of, outlook_at, IsScope};

use crate::below::Below;
use crate::counting::{count_of, open_met, scope_met, sure_met};
use crate::faults::SpaceFault;
use crate::growing::{
    declare_again, declare_first, extend, is_taken, reach_below, reach_from, reach_made, set_given,
    set_out,
};
use crate::listing::{Rows, list_rows};
use crate::nodes::Node;
use crate::parents::{ancestor, depth_at};
use crate::rows::Row;
use crate::scopes::{NEAR, Scope};
use crate::space_paths::{SpacePath, numbered};
use crate::walking::{kind_at, node_below, seen_kind, standing_below, walk_counted};
use crate::ways::Ways;
use aml_names::{Name, NoMemory, Path, Seg};
use aml_namespace::{Kind, PathId, SpaceRow, predefined_kind};
use std::alloc::{AllocError, Global};
use std::marker::Model;

/// To keep the ways up from a node takes as long as so many looks at levels.
const LOOKS: usize = 8;

/// The namespace of the tables so far: what they declare, and what Externals name, over the predefined names; and the
/// argument counts that the user gives to paths of which no table says one.
#[derive(Drop)]
pub struct Space {
    alloc: Global,
    /// The root first. A child has a greater number than its parent.
    pub(crate) nodes: Vec<Node>,
    /// How many paths are declared.
    rows: usize,
    /// The ways up from some first nodes.
    ways: Ways,
    /// How many levels, but for the nearest, were looked at at most since the last time that ways were kept.
    looked: usize,
    /// How many segments the longest path has from which names may be searched.
    deepest: usize,
}

impl Model for Space {
    ghost use Rattle.aml_namespace.specs.Known.{Known, coded_known};

    ghost Value = { Known };

    ghost coded = { coded_known };

    ghost use Rattle.aml_space.specs.Nodes.{known_in};
    ghost use Rattle.aml_space.specs.Spaces.{IsSpace};

    ghost view = { λ s. known_in s.nodes.items };

    ghost invariant = { λ s. IsSpace s.nodes.items s.rows s.ways };
}

impl Space {
    /// The predefined names alone (ACPI 6.5, 5.3.1 and 5.7).
    pub fn new(alloc: Global) -> Result<Space, NoMemory>
        ensures known { IfOk result (λ space. space ≡ nothing_known) }
        ensures stands { IfOk result (λ space. StandsFor space []) }
    {
        let mut nodes = Vec::new(alloc);
        nodes.push(Node::empty(PathId::root(), Seg::default(), 0))?;
        Ok(Space {
            alloc,
            nodes,
            rows: 0,
            ways: Ways::new(alloc),
            looked: 0,
            deepest: 0,
        })
    }

    /// Declares a path surely. It may be that of a predefined name, once. `Duplicate` where the path is declared
    /// already. A refused declaration changes nothing that is known of paths.
    pub fn declare(&mut self, path: Path, kind: Kind<Path>) -> Result<(), SpaceFault>
        ensures ok { OnOk result (Grows (with_declared self.old path kind) self.new) }
        ensures stands { (es : List Entry) (body : Option Body) → StandsFor self.old es →
            OnOk result (StandsFor self.new (es ++ declares path kind body true ∷ [])) }
        ensures err { OnErr result (Grows self.old self.new) }
        ensures only_then { IfErr result (λ e. (e ≡ SpaceFault.NoMemory) ⊎ ((e ≡ SpaceFault.Duplicate path) ×
            IsTrue (declared_yet self.old path))) }
        ensures duplicate { IsTrue (declared_yet self.old path) → result ≡ Err (SpaceFault.Duplicate path) }
    {
        let whole = self.whole(path.segs());
        if self.declared(&whole).is_some() {
            return Err(SpaceFault::Duplicate(path));
        }
        let kind = self.number_kind(&kind)?;
        if self.put_once(&self.whole(path.segs()), kind, true)? {
            Ok(())
        } else {
            Err(SpaceFault::Duplicate(path))
        }
    }

    /// Declares a path that isn't declared yet, surely or not, and answers whether it did: `false` where the path is
    /// declared already, which takes no memory. A refused call changes nothing that is known of paths.
    pub fn put_once(
        &mut self,
        path: &Below<'_>,
        kind: Kind<PathId>,
        surely: bool,
    ) -> Result<bool, NoMemory>
        requires target { IsAmong (length self.old.paths) kind }
        ensures put { IfOk result (λ put. put ≡ not (declared_yet self.old (path_below self.old.paths path.now))) }
        ensures known { IfOk result (λ put.
            Grows (cond put (with_declaration self.old (path_below self.old.paths path.now)
            (once (kind_in self.old.paths kind) surely)) self.old) self.new) }
        ensures err { OnErr result (Grows self.old self.new) }
        ensures taken { IsTrue (declared_yet self.old (path_below self.old.paths path.now)) → result ≡ Ok false }
        // The same of a list of entries that it stands for.
        ensures listed { (es : List Entry) → StandsFor self.old es →
            IfOk result (λ put. put ≡ not (is_some (declared_at es (path_below self.old.paths path.now)))) }
        ensures stands { (es : List Entry) (body : Option Body) → StandsFor self.old es →
            IfOk result (λ put. StandsFor self.new
            (cond put (es ++ declares (path_below self.old.paths path.now)
            (kind_in self.old.paths kind) body surely ∷ []) es)) }
    {
        let reach = reach_below(self.nodes.as_slice(), path);
        if is_taken(self.nodes.as_slice(), reach) {
            return Ok(false);
        }
        if self.rows == usize::MAX {
            return Err(AllocError);
        }
        declare_first(self.alloc, &mut self.nodes, reach, kind, surely)?;
        self.rows += 1;
        Ok(true)
    }

    /// Declares a path once more, or for the first time: surely, or so that it stands in some runs of the code outside
    /// methods alone. A refused declaration changes nothing that is known of paths.
    pub fn declare_again(
        &mut self,
        path: Path,
        kind: Kind<Path>,
        sure: bool,
    ) -> Result<(), NoMemory>
        ensures ok { OnOk result (Grows (with_again self.old path kind sure) self.new) }
        ensures stands { (es : List Entry) (body : Option Body) → StandsFor self.old es →
            OnOk result (StandsFor self.new (es ++ declares path kind body sure ∷ [])) }
        ensures err { OnErr result (Grows self.old self.new) }
    {
        let kind = self.number_kind(&kind)?;
        self.put_again(&self.whole(path.segs()), kind, sure)
    }

    /// The same of a path below one with a number.
    pub fn put_again(
        &mut self,
        path: &Below<'_>,
        kind: Kind<PathId>,
        sure: bool,
    ) -> Result<(), NoMemory>
        requires target { IsAmong (length self.old.paths) kind }
        ensures ok { OnOk result (Grows
            (with_again self.old (path_below self.old.paths path.now) (kind_in self.old.paths kind) sure) self.new) }
        ensures stands { (es : List Entry) (body : Option Body) → StandsFor self.old es →
            OnOk result (StandsFor self.new (es
            ++ declares (path_below self.old.paths path.now) (kind_in self.old.paths kind) body sure ∷ [])) }
        ensures err { OnErr result (Grows self.old self.new) }
    {
        let reach = reach_below(self.nodes.as_slice(), path);
        if is_taken(self.nodes.as_slice(), reach) {
            return declare_again(self.alloc, &mut self.nodes, reach.node, kind, sure);
        }
        if self.rows == usize::MAX {
            return Err(AllocError);
        }
        declare_first(self.alloc, &mut self.nodes, reach, kind, sure)?;
        self.rows += 1;
        Ok(())
    }

    /// Adds an External: it names a path and says how many arguments this takes, 0 to 7 (ACPI 6.5, 20.2.5.2). Many of
    /// one path may stand. A refused External changes nothing.
    pub fn external(&mut self, path: Path, count: u8) -> Result<(), NoMemory>
        ensures ok { OnOk result (Grows (with_external self.old path count) self.new) }
        ensures stands { (es : List Entry) → StandsFor self.old es →
            OnOk result (StandsFor self.new (es ++ outside path count ∷ [])) }
        ensures err { OnErr result (self.new ≡ self.old) }
    {
        self.put_external(&self.whole(path.segs()), count)
    }

    /// The same of a path below one with a number.
    pub fn put_external(&mut self, path: &Below<'_>, count: u8) -> Result<(), NoMemory>
        ensures ok { OnOk result (Grows (with_external self.old (path_below self.old.paths path.now) count) self.new) }
        ensures stands { (es : List Entry) → StandsFor self.old es →
            OnOk result (StandsFor self.new (es ++ outside (path_below self.old.paths path.now) count ∷ [])) }
        ensures err { OnErr result (self.new ≡ self.old) }
    {
        let reach = reach_below(self.nodes.as_slice(), path);
        let at = extend(self.alloc, &mut self.nodes, reach)?;
        set_out(&mut self.nodes, at, count);
        Ok(())
    }

    /// Adds an argument count that the user gives to a path. It counts where a name leads nowhere that any table names,
    /// and declares nothing. Many of one path may stand; the greatest counts. A refused one changes nothing.
    pub fn given(&mut self, path: &Path, count: u8) -> Result<(), NoMemory>
        ensures ok { OnOk result (Grows (with_given self.old path.now count) self.new) }
        ensures stands { (es : List Entry) → StandsFor self.old es →
            OnOk result (StandsFor self.new (es ++ said path.now count ∷ [])) }
        ensures err { OnErr result (self.new ≡ self.old) }
    {
        let reach = reach_from(self.nodes.as_slice(), 0, path.segs());
        let at = extend(self.alloc, &mut self.nodes, reach)?;
        set_given(&mut self.nodes, at, count);
        Ok(())
    }

    /// The number of the root.
    pub fn root(&self) -> PathId
        ensures { StandsAt self.now result [] }
    {
        let _ = &self.nodes;
        PathId::root()
    }

    /// The path of these segments.
    pub fn whole<'p>(&self, segs: &'p [Seg]) -> Below<'p>
        ensures { path_below self.now.paths result ≡ segs.now }
    {
        let _ = &self.nodes;
        Below {
            above: PathId::root(),
            segs,
        }
    }

    /// Where a name leads from a scope without a search: behind which path its segments stand. `None` where its
    /// prefixes lead above the root (ACPI 6.5, 5.3).
    pub fn above(&self, scope: PathId, name: &Name) -> Option<PathId>
        ensures placed { placed (path_at self.now scope) name.now
            ≡ path_behind self.now.paths name.now.segs result }
        ensures within { IfSome result (λ id. id < length self.now.paths) }
    {
        let here = self.scope_at(scope);
        let front = here.front_of(name);
        here.numbered(front)
    }

    /// A path without its last segment; of the root, itself.
    pub fn outside<'p>(&self, path: &Below<'p>) -> Below<'p>
        ensures { let whole = path_below self.now.paths path.now in
            path_below self.now.paths result ≡ take (length whole - 1) whole }
    {
        match path.segs {
            [front @ .., _last] => Below {
                above: path.above,
                segs: front,
            },
            [] => {
                let nodes = self.nodes.as_slice();
                let at = numbered(nodes, path.above);
                let levels = depth_at(nodes, at).min(1) as usize;
                Below {
                    above: PathId::new(ancestor(nodes, at, levels)),
                    segs: &[],
                }
            }
        }
    }

    /// The number of a path, by which its node is found at once; it has one from now on. A refused call changes
    /// nothing.
    pub fn number(&mut self, path: &Below<'_>) -> Result<PathId, NoMemory>
        ensures grows { Grows self.old self.new }
        ensures ok { IfOk result (λ id. StandsAt self.new id (path_below self.old.paths path.now)) }
        ensures err { OnErr result (self.new ≡ self.old) }
    {
        let reach = reach_made(self.nodes.as_slice(), path);
        let node = extend(self.alloc, &mut self.nodes, reach)?;
        let depth = depth_at(self.nodes.as_slice(), node) as usize;
        self.deepest = self.deepest.max(depth);
        Ok(PathId::new(node))
    }

    /// The number of what an Alias of a path stands for: that of the path, or of its own target where it is an Alias. A
    /// refused call changes nothing.
    pub fn number_target(&mut self, path: &Below<'_>) -> Result<PathId, NoMemory>
        ensures grows { Grows self.old self.new }
        ensures ok { IfOk result (λ id. StandsAt self.new id
            (target_by (kind_at (namespace_in self.old) (path_below self.old.paths path.now))
            (path_below self.old.paths path.now))) }
        ensures err { OnErr result (self.new ≡ self.old) }
    {
        match self.declared(path) {
            Some(Kind::Alias { target, .. }) => {
                let at = numbered(self.nodes.as_slice(), target);
                Ok(PathId::new(at))
            }
            _ => self.number(path),
        }
    }

    /// A kind with the number of an Alias's target. A refused call changes nothing.
    fn number_kind(&mut self, kind: &Kind<Path>) -> Result<Kind<PathId>, NoMemory>
        ensures grows { Grows self.old self.new }
        ensures ok { IfOk result (λ numbered. kind_in self.new.paths numbered ≡ kind.now) }
        ensures among { IfOk result (IsAmong (length self.new.paths)) }
        ensures err { OnErr result (self.new ≡ self.old) }
    {
        let target = match kind.target() {
            None => PathId::root(),
            Some(path) => self.number(&self.whole(path.segs()))?,
        };
        Ok(kind.aimed_at(target))
    }

    /// The path of a number; the root where no path has it.
    pub fn path(&self, id: PathId) -> SpacePath<'_>
        ensures { result ≡ path_at self.now id }
    {
        let nodes = self.nodes.as_slice();
        SpacePath::new(nodes, numbered(nodes, id))
    }

    /// A path, made anew.
    pub fn to_path(&self, path: &Below<'_>) -> Result<Path, NoMemory>
        ensures { IfOk result (λ whole. whole ≡ path_below self.now.paths path.now) }
    {
        let front = self.path(path.above).to_path(self.alloc)?;
        Path::below(self.alloc, front.segs(), path.segs)
    }

    /// Keeps the ways up from all nodes, where searches may go far up, so that names cost the levels alone that have
    /// such a child. What is known stays the same, also where memory is refused.
    pub fn settle(&mut self) -> Result<(), NoMemory>
        ensures { self.new ≡ self.old }
    {
        if self.deepest <= NEAR {
            return Ok(());
        }
        self.looked = 0;
        self.ways.fill(self.nodes.as_slice())
    }

    /// Does this once looks at levels may have taken as long, with those of a search from a scope that comes next. Where
    /// memory is refused, each level is looked at.
    pub fn expect_search(&mut self, scope: PathId)
        ensures { self.new ≡ self.old }
    {
        let nodes = self.nodes.as_slice();
        let levels = depth_at(nodes, numbered(nodes, scope)) as usize;
        self.looked = self.looked.saturating_add(levels.saturating_sub(NEAR));
        if self.looked / LOOKS >= self.nodes.len() - self.ways.steps.len() {
            let _settled = self.settle();
        }
    }

    /// The kind with which a path is declared, and the comparisons of segments that were made.
    fn declared_counted(&self, path: &Path) -> (Option<Kind<PathId>>, u128)
        ensures kind { option_map (kind_in self.now.paths) result.0 ≡ (namespace_in self.now).declared path.now }
        ensures few { result.1 ≤ 64 * length path.now }
    {
        let nodes = self.nodes.as_slice();
        let (at, compared) = walk_counted(nodes, path.segs());
        (kind_at(nodes, at), compared)
    }

    /// The kind with which a path is declared.
    fn declared(&self, path: &Below<'_>) -> Option<Kind<PathId>>
        ensures { option_map (kind_in self.now.paths) result
            ≡ (namespace_in self.now).declared (path_below self.now.paths path.now) }
    {
        let nodes = self.nodes.as_slice();
        kind_at(nodes, node_below(nodes, path))
    }

    /// The kind of a path: the declared one, else the predefined one.
    pub fn kind(&self, path: &Path) -> Option<Kind<SpacePath<'_>>>
        ensures known { result ≡ kind_at (namespace_in self.now) path.now }
        ensures listed { (es : List Entry) → StandsFor self.now es → result ≡ kind_at (namespace_of es) path.now }
    {
        self.shown(self.kind_by_number(path))
    }

    /// The same, with the number of an Alias's target.
    fn kind_by_number(&self, path: &Path) -> Option<Kind<PathId>>
        ensures { option_map (kind_in self.now.paths) result ≡ kind_at (namespace_in self.now) path.now }
    {
        match self.declared(&self.whole(path.segs())) {
            Some(kind) => Some(kind),
            None => predefined_kind(path.segs()),
        }
    }

    /// A kind with the path of an Alias's target.
    fn shown(&self, kind: Option<Kind<PathId>>) -> Option<Kind<SpacePath<'_>>>
        ensures { result ≡ option_map (kind_in self.now.paths) kind }
    {
        match kind {
            None => None,
            Some(kind) => Some(seen_kind(self.nodes.as_slice(), kind)),
        }
    }

    /// What `kind` answers, and how many comparisons of segments the look-up made.
    #[tactic(auto, using(aml_namespace::proofs::Stands::kind_listed))]
    pub fn kind_counted(&self, path: &Path) -> (Option<Kind<SpacePath<'_>>>, u128)
        ensures known { result.0 ≡ kind_at (namespace_in self.now) path.now }
        ensures listed { (es : List Entry) → StandsFor self.now es → result.0 ≡ kind_at (namespace_of es) path.now }
        ensures few { result.1 ≤ 64 * length path.now }
    {
        let (declared, compared) = self.declared_counted(path);
        let kind = declared.or(predefined_kind(path.segs()));
        (self.shown(kind), compared)
    }

    /// Whether a path is declared, by whatever declaration.
    pub fn is_declared(&self, path: &Below<'_>) -> bool
        ensures known { result ≡ declared_yet self.now (path_below self.now.paths path.now) }
        ensures listed { (es : List Entry) → StandsFor self.now es → result
            ≡ is_some (declared_at es (path_below self.now.paths path.now)) }
    {
        self.declared(path).is_some()
    }

    /// Whether a path has a kind whatever runs: by a sure declaration, or since it is predefined.
    pub fn is_sure(&self, path: &Below<'_>) -> bool
        ensures known { result ≡ (outlook_in self.now).sure (path_below self.now.paths path.now) }
        ensures listed { (es : List Entry) → StandsFor self.now es → result
            ≡ sure_at es (path_below self.now.paths path.now) }
    {
        let nodes = self.nodes.as_slice();
        let node = node_below(nodes, path);
        sure_met(nodes, node, standing_below(nodes, path))
    }

    /// Whether a Scope may open a path whatever runs: it has a kind then, and each of its kinds is a scope's (ACPI 6.5,
    /// 19.6.122).
    pub fn is_scope(&self, path: &Below<'_>) -> bool
        ensures known { result ≡ scope_in (outlook_in self.now) (path_below self.now.paths path.now) }
        ensures listed { (es : List Entry) → StandsFor self.now es → result
            ≡ scope_in (outlook_of es) (path_below self.now.paths path.now) }
    {
        let nodes = self.nodes.as_slice();
        let node = node_below(nodes, path);
        scope_met(nodes, node, standing_below(nodes, path))
    }

    /// Whether an Alias of a path is open: one of the path's kinds is an Alias that isn't the only kind, or is open.
    pub fn is_open(&self, path: &Below<'_>) -> bool
        ensures known { result ≡ open_in (outlook_in self.now) (path_below self.now.paths path.now) }
        ensures listed { (es : List Entry) → StandsFor self.now es → result
            ≡ open_in (outlook_of es) (path_below self.now.paths path.now) }
    {
        let nodes = self.nodes.as_slice();
        let node = node_below(nodes, path);
        open_met(nodes, node, standing_below(nodes, path))
    }

    /// How many arguments a path takes where the first declaration of a path counts: those of a method, also through an
    /// Alias; none for another kind. Where the path
    /// has no kind, the greatest count of its Externals. Nothing where no table names it.
    #[tactic(auto, using(aml_namespace::proofs::Stands::count_listed))]
    pub fn count(&self, path: &Path) -> Option<u8>
        ensures known { result ≡ count_at (namespace_in self.now) path.now }
        ensures listed { (es : List Entry) → StandsFor self.now es → result ≡ count_at (namespace_of es) path.now }
    {
        count_of(self.nodes.as_slice(), path)
    }

    /// A path as a scope.
    pub(crate) fn scope_of<'a>(&'a self, path: &'a [Seg]) -> Scope<'a>
        ensures scope { IsScope result }
        ensures known { known_by result.nodes.now ≡ of_paths self.now }
        ensures names { names_of result ≡ namespace_in self.now }
        ensures outlook { outlook_at result ≡ outlook_in self.now }
        ensures path { path_in result ≡ path.now }
    {
        let nodes = self.nodes.as_slice();
        Scope::new(nodes, &self.ways, reach_from(nodes, 0, path))
    }

    /// The path of a number, as a scope.
    pub(crate) fn scope_at(&self, id: PathId) -> Scope<'_>
        ensures scope { IsScope result }
        ensures known { known_by result.nodes.now ≡ of_paths self.now }
        ensures paths { paths_in result.nodes.now ≡ self.now.paths }
        ensures path { path_in result ≡ path_at self.now id }
        ensures whole { result.last.depth ≡ length (path_in result) }
    {
        let nodes = self.nodes.as_slice();
        Scope::at(nodes, &self.ways, numbered(nodes, id))
    }

    /// How many paths are declared.
    pub fn row_count(&self) -> usize
        ensures { result ≡ length (map.entries self.now.declarations) }
    {
        self.rows
    }

    /// The declared paths in order, one after the other, each once, with what its declarations say.
    pub fn in_order(&self) -> Rows<'_>
        ensures { result ≡ map.entries self.now.declarations }
    {
        Rows::new(self.nodes.as_slice())
    }

    /// The declared path at a place in the order of the paths. Paths are ordered by their segments as
    /// bytes, a shorter path before those that it begins. The predefined names that nothing replaced aren't among them.
    /// This goes through all paths before it; `in_order` gives all of them by one walk.
    pub fn row_at(&self, index: usize) -> Option<Row<'_>>
        ensures { result ≡ slice_get (map.entries self.now.declarations) index }
    {
        let mut rows = self.in_order();
        for _place in 0..index {
            rows.next()?;
        }
        rows.next()
    }

    /// The declared paths in order, each once, with what its declarations say.
    pub fn rows(&self, alloc: Global) -> Result<Vec<SpaceRow>, NoMemory>
        ensures known { IfOk result (λ rows. rows.items ≡ map_list row_of (map.entries self.now.declarations)) }
        ensures listed { (es : List Entry) → StandsFor self.now es → IfOk result (λ rows. AreRows es rows.items) }
    {
        let rows = list_rows(alloc, self.nodes.as_slice())?;
        Ok(rows)
    }
}

//! What the terms of a table declare.
ghost use Rattle.std.specs.Prelude.{◌≡◌, ◌∷◌, [], Option, Some, None, Ok, IfOk, IfSome, OnOk, true, length, ◌<◌, map};
ghost use Rattle.std.specs.Option.{option_copied};
ghost use Rattle.std.specs.List.{list_all};
ghost use Rattle.aml_code.specs.Lawful.{plain_name};
ghost use Rattle.aml_namespace.specs.Namespace.{Body, declares, external as outside};
ghost use Rattle.aml_namespace.specs.Runs.{outlook_of, sure_at, open_in};
ghost use Rattle.aml_namespace.specs.Kinds.{kind_in, IsAmong};
ghost use Rattle.aml_namespace.specs.Known.{StandsAt, StandsFor};
ghost use Rattle.aml_namespace.specs.declared.kinds.Kind.TheVariants.{Alias};
ghost use Rattle.aml_space.specs.Below.{path_below, path_behind};
ghost use Rattle.aml_load.specs.Declaring.{Listed, plus, lead_of, target_of, place_at, lead_at, entry_at, new_at};
ghost use Rattle.aml_load.specs.Declaring.{method_at, alias_at, external_at, units_at};
ghost use Rattle.aml_load.specs.Loading.{method_entry, parent_of, sure_with, plain_entry};
ghost use Rattle.aml_load.specs.Walking.{at_site, Gives, GivesIn, IsDeclared, Walks, IsInside, Stays, Holds, IsBelow, AreBelow, IsPlain};
ghost use Rattle.aml_load.specs.Walking.{root_at, source_path, source_paths, sure_of};
ghost use Rattle.aml_space.specs.declared.faults.SpaceFault.TheVariants as AnyFault;
ghost use Rattle.aml_load.specs.Groups.{AreKnown, uses_of};
ghost use Rattle.aml_load.specs.Hearing.{with_more};

use crate::faults::LoadFault;
use crate::groups::{Group, add_groups};
use crate::sites::Site;
use aml_code::{Name, NoMemory, Seg};
use aml_set::Method;
use aml_space::{Below, Kind, PathId, Space, SpaceFault};
use std::alloc::Global;

/// The most methods that a set of tables may have.
const MAX_METHODS: usize = 1_048_576;

/// What the tables so far have made.
#[derive(Drop)]
pub struct Progress {
    pub alloc: Global,
    pub space: Space,
    pub methods: Vec<Method>,
    /// The names outside the methods, in groups of one scope.
    pub uses: Vec<Group>,
}

impl Progress {
    /// Where the first term of a table stands.
    pub fn root_site(&self, table: usize, any_run: bool) -> Site
        ensures site { at_site self.now.space result ≡ root_at any_run table }
        ensures inside { IsInside self.now result }
        ensures runs { result.any_run ≡ any_run }
    {
        Site {
            table,
            scope: self.space.root(),
            any_run,
            sure: true,
        }
    }
}

#[tactic(auto, unfolding(crate::specs::Declaring::place_at))]
impl Progress {
    /// Where a name leads from a scope, without a search. `AboveRoot` where that is nowhere.
    pub fn placed_path<'n>(&self, site: &Site, name: &'n Name) -> Result<Below<'n>, LoadFault>
        ensures gives { Gives (path_below self.now.space.paths) result
            (place_at (at_site self.now.space site.now) (Some name.now)) }
        ensures below { AreBelow self.now.space result }
    {
        match self.space.above(site.scope, name) {
            None => Err(LoadFault::Space(site.table, SpaceFault::AboveRoot)),
            Some(above) => Ok(Below {
                above,
                segs: name.segs.as_slice(),
            }),
        }
    }

    /// The same of a term's name. `AboveRoot` where it has none.
    pub fn own_path<'n>(&self, site: &Site, name: Option<&'n Name>) -> Result<Below<'n>, LoadFault>
        ensures gives { Gives (path_below self.now.space.paths) result
            (place_at (at_site self.now.space site.now) (option_copied name.entry)) }
        ensures below { AreBelow self.now.space result }
    {
        match name {
            None => Err(LoadFault::Space(site.table, SpaceFault::AboveRoot)),
            Some(name) => self.placed_path(site, name),
        }
    }
}

impl Progress {
    /// What a name leads to in its scope: behind which path its segments stand.
    pub fn found_above(&self, site: &Site, name: &Name) -> Result<Option<PathId>, NoMemory>
        ensures within { IfOk result (λ met. IfSome met (λ id. id < length self.now.space.paths)) }
        ensures found { (l : Listed) → StandsFor self.now.space l.entries →
            IfOk result (λ met. path_behind self.now.space.paths name.now.segs met
            ≡ lead_of (at_site self.now.space site.now) l.entries (Some name.now)) }
    {
        if site.any_run {
            self.space.lead_from(site.scope, name)
        } else {
            self.space.find_from(site.scope, name)
        }
    }
}

impl Progress {
    /// Gets ready for the search of a name, which may look at each level of its scope.
    pub fn expect_search(&mut self, site: &Site, name: Option<&Name>)
        ensures { self.new ≡ self.old }
    {
        match name {
            Some(name) if name.is_single() => self.space.expect_search(site.scope),
            _ => {}
        }
    }
}

#[tactic(auto, unfolding(crate::specs::Declaring::lead_at, crate::specs::Declaring::place_at))]
impl Progress {
    /// The path that the source of an Alias leads to. `AliasMissing` where that is nothing.
    fn led_path<'n>(&self, site: &Site, name: Option<&'n Name>) -> Result<Below<'n>, LoadFault>
        ensures below { AreBelow self.now.space result }
        ensures gives { GivesIn (path_below self.now.space.paths) self.now.space result (λ l.
            lead_at (at_site self.now.space site.now) l.entries (option_copied name.entry) (λ p. AnyFault.AliasMissing p)) }
    {
        let Some(name) = name else {
            return Err(LoadFault::Space(site.table, SpaceFault::AboveRoot));
        };
        let path = self.placed_path(site, name)?;
        match self.found_above(site, name)? {
            Some(above) => Ok(Below {
                above,
                segs: name.segs.as_slice(),
            }),
            None => {
                let missing = SpaceFault::AliasMissing(self.space.to_path(&path)?);
                Err(LoadFault::Space(site.table, missing))
            }
        }
    }
}

impl Progress {
    /// The number of what an Alias of a path stands for: an Alias' own target, else the path.
    fn target_of(&mut self, source: &Below<'_>) -> Result<PathId, NoMemory>
        ensures holds { (l : Listed) → Holds self.old l → Holds self.new l }
        ensures target { (l : Listed) → StandsFor self.old.space l.entries →
            IfOk result (λ id. StandsAt self.new.space id
            (target_of l.entries (path_below self.old.space.paths source.now))) }
        ensures among { IfOk result (λ id. id < length self.new.space.paths) }
        ensures stays { Stays self.old self.new }
    {
        self.space.number_target(source)
    }

    /// Whether what an Alias is declared of has a kind whatever runs; true of another kind.
    fn is_source_sure(&self, source: Option<&Below<'_>>) -> bool
        ensures { (l : Listed) → StandsFor self.now.space l.entries →
            result ≡ list_all (sure_at l.entries)
            (source_paths (source_path self.now.space.paths (option_copied source.entry))) }
    {
        match source {
            None => true,
            Some(source) => self.space.is_sure(source),
        }
    }

    /// Whether a path that is declared at a site is declared in every run. `source`: what an Alias is declared of.
    pub fn is_sure_here(&self, site: &Site, path: &Below<'_>, source: Option<&Below<'_>>) -> bool
        ensures { (l : Listed) → StandsFor self.now.space l.entries →
            result ≡ sure_of (at_site self.now.space site.now) l.entries (path_below self.now.space.paths path.now)
            (source_path self.now.space.paths (option_copied source.entry)) }
    {
        if !site.any_run {
            return site.sure;
        }
        let outside = self.space.outside(path);
        site.sure && self.space.is_sure(&outside) && self.is_source_sure(source)
    }

    /// Declares a path: once where the code outside methods may not run, else `Duplicate`; and also again where it may.
    /// `source`: what an Alias is declared of.
    fn declare_path(
        &mut self,
        site: &Site,
        path: &Below<'_>,
        kind: Kind<PathId>,
        source: Option<&Below<'_>>,
    ) -> Result<(), LoadFault>
        requires inside { IsInside self.old site.now }
        requires below { IsBelow self.old.space path.now }
        requires source { IfSome source (λ s. IsBelow self.old.space s.now) }
        requires target { IsAmong (length self.old.space.paths) kind }
        ensures declared { (l : Listed) (body : Option Body) → StandsFor self.old.space l.entries →
            IsDeclared (at_site self.old.space site.now) l.entries (path_below self.old.space.paths path.now)
            (declares (path_below self.old.space.paths path.now) (kind_in self.old.space.paths kind) body
            (sure_of (at_site self.old.space site.now) l.entries (path_below self.old.space.paths path.now)
            (source_path self.old.space.paths (option_copied source.entry))))
            self.old self.new result }
        ensures stays { OnOk result (Stays self.old self.new) }
    {
        let sure = self.is_sure_here(site, path, source);
        if site.any_run {
            self.space.put_again(path, kind, sure)?;
            return Ok(());
        }
        if self.space.put_once(path, kind, sure)? {
            return Ok(());
        }
        let taken = SpaceFault::Duplicate(self.space.to_path(path)?);
        Err(LoadFault::Space(site.table, taken))
    }

    /// Declares a path that has no body. `source`: what an Alias is declared of.
    #[tactic(auto, unfolding(crate::specs::Declaring::entry_at))]
    fn declare_of(
        &mut self,
        site: &Site,
        path: &Below<'_>,
        kind: Kind<PathId>,
        source: Option<&Below<'_>>,
    ) -> Result<(), LoadFault>
        requires inside { IsInside self.old site.now }
        requires below { IsBelow self.old.space path.now }
        requires source { IfSome source (λ s. IsBelow self.old.space s.now) }
        requires target { IsAmong (length self.old.space.paths) kind }
        ensures walks { Walks self.old self.new result (λ l.
            entry_at (at_site self.old.space site.now) l (path_below self.old.space.paths path.now)
            (declares (path_below self.old.space.paths path.now) (kind_in self.old.space.paths kind) None
            (sure_of (at_site self.old.space site.now) l.entries (path_below self.old.space.paths path.now)
            (source_path self.old.space.paths (option_copied source.entry))))) }
        ensures stays { OnOk result (Stays self.old self.new) }
    {
        self.declare_path(site, path, kind, source)
    }

    /// Declares a path that has no body and is no Alias of anything.
    pub fn declare(
        &mut self,
        site: &Site,
        path: &Below<'_>,
        kind: Kind<PathId>,
    ) -> Result<(), LoadFault>
        requires inside { IsInside self.old site.now }
        requires below { IsBelow self.old.space path.now }
        requires plain { IsPlain kind (kind_in [] kind) }
        ensures walks { Walks self.old self.new result (λ l.
            entry_at (at_site self.old.space site.now) l (path_below self.old.space.paths path.now)
            (plain_entry (at_site self.old.space site.now) l.entries (kind_in [] kind)
            (path_below self.old.space.paths path.now))) }
        ensures stays { OnOk result (Stays self.old self.new) }
    {
        self.declare_of(site, path, kind, None)
    }

    /// Declares the path of a method with a body that begins here, so long.
    fn declare_body(
        &mut self,
        site: &Site,
        path: &Below<'_>,
        flags: u8,
        start: u32,
        len: u32,
    ) -> Result<(), LoadFault>
        requires inside { IsInside self.old site.now }
        requires below { IsBelow self.old.space path.now }
        ensures walks { Walks self.old self.new result
            (λ l. entry_at (at_site self.old.space site.now) l (path_below self.old.space.paths path.now)
            (method_entry (at_site self.old.space site.now) l.entries flags (start, len)
            (path_below self.old.space.paths path.now))) }
        ensures stays { OnOk result (Stays self.old self.new) }
    {
        self.declare_path(site, path, Kind::Method { args: flags % 8 }, None)?;
        let number = self.space.number(path)?;
        self.methods.push(Method {
            path: number,
            flags,
            start,
            len,
            table: site.table,
        })?;
        Ok(())
    }
}

#[tactic(auto, unfolding(crate::specs::Declaring::new_at))]
impl Progress {
    /// Declares a name as an Alias of a source.
    fn declare_alias(
        &mut self,
        site: &Site,
        name: Option<&Name>,
        source: &Below<'_>,
    ) -> Result<(), LoadFault>
        requires inside { IsInside self.old site.now }
        requires below { IsBelow self.old.space source.now }
        ensures walks { Walks self.old self.new result (λ l.
            new_at (at_site self.old.space site.now) l (option_copied name.entry) (λ p. declares p
            (Alias (open_in (outlook_of l.entries) (path_below self.old.space.paths source.now))
            (target_of l.entries (path_below self.old.space.paths source.now))) None
            (sure_with (at_site self.old.space site.now) l.entries (parent_of p
            ∷ (path_below self.old.space.paths source.now) ∷ [])))) }
        ensures stays { OnOk result (Stays self.old self.new) }
    {
        let path = self.own_path(site, name)?;
        let target = self.target_of(source)?;
        let is_open = self.space.is_open(source);
        self.declare_of(site, &path, Kind::Alias { is_open, target }, Some(source))
    }

    /// Declares a method, however many there are.
    fn declare_method(
        &mut self,
        site: &Site,
        name: Option<&Name>,
        flags: u8,
        span: (u32, u32),
    ) -> Result<(), LoadFault>
        requires { IsInside self.old site.now }
        ensures walks { Walks self.old self.new result (λ l. new_at (at_site self.old.space site.now) l
            (option_copied name.entry) (method_entry (at_site self.old.space site.now) l.entries flags span)) }
        ensures stays { OnOk result (Stays self.old self.new) }
    {
        let path = self.own_path(site, name)?;
        self.declare_body(site, &path, flags, span.0, span.1)
    }
}

impl Progress {
    /// Declares a method. `TooManyMethods` where as many as there may be are there, whatever its name is.
    #[tactic(auto, unfolding(crate::specs::Declaring::method_at))]
    pub fn declare_one_method(
        &mut self,
        site: &Site,
        name: Option<&Name>,
        flags: u8,
        span: (u32, u32),
    ) -> Result<(), LoadFault>
        requires { IsInside self.old site.now }
        ensures walks { Walks self.old self.new result (λ l.
            method_at (at_site self.old.space site.now) l (option_copied name.entry) flags span) }
        ensures stays { OnOk result (Stays self.old self.new) }
    {
        if MAX_METHODS <= self.methods.len() {
            return Err(LoadFault::TooManyMethods);
        }
        self.declare_method(site, name, flags, span)
    }

    #[tactic(auto, unfolding(crate::specs::Declaring::alias_at))]
    pub fn declare_one_alias(
        &mut self,
        site: &Site,
        source: Option<&Name>,
        name: Option<&Name>,
    ) -> Result<(), LoadFault>
        requires { IsInside self.old site.now }
        ensures walks { Walks self.old self.new result (λ l.
            alias_at (at_site self.old.space site.now) l (option_copied source.entry) (option_copied name.entry)) }
        ensures stays { OnOk result (Stays self.old self.new) }
    {
        self.expect_search(site, source);
        let source = self.led_path(site, source)?;
        self.declare_alias(site, name, &source)
    }

    /// Adds an External of a path.
    fn add_count(&mut self, path: &Below<'_>, count: u8) -> Result<(), LoadFault>
        ensures walks { Walks self.old self.new result (λ l.
            Ok (plus l (outside (path_below self.old.space.paths path.now) count))) }
        ensures stays { OnOk result (Stays self.old self.new) }
    {
        self.space.put_external(path, count)?;
        Ok(())
    }

    #[tactic(auto, unfolding(crate::specs::Declaring::external_at))]
    pub fn declare_external(
        &mut self,
        site: &Site,
        name: Option<&Name>,
        count: u8,
    ) -> Result<(), LoadFault>
        requires { IsInside self.old site.now }
        ensures walks { Walks self.old self.new result (λ l.
            external_at (at_site self.old.space site.now) l (option_copied name.entry) count) }
        ensures stays { OnOk result (Stays self.old self.new) }
    {
        let path = self.own_path(site, name)?;
        self.add_count(&path, count)
    }
}

#[tactic(auto, unfolding(crate::specs::Declaring::units_at))]
impl Progress {
    /// Declares the unit of a field list with this segment.
    fn add_unit(&mut self, site: &Site, seg: &Seg) -> Result<(), LoadFault>
        requires { IsInside self.old site.now }
        ensures walks { Walks self.old self.new result (λ l.
            units_at (at_site self.old.space site.now) l (plain_name seg.now ∷ [])) }
        ensures stays { OnOk result (Stays self.old self.new) }
    {
        let path = Below {
            above: site.scope,
            segs: &[*seg],
        };
        self.declare(site, &path, Kind::Field)
    }

    /// Declares the units of a field list with these segments.
    pub fn add_segments(&mut self, site: &Site, segs: &[Seg]) -> Result<(), LoadFault>
        requires { IsInside self.old site.now }
        ensures walks { Walks self.old self.new result (λ l.
            units_at (at_site self.old.space site.now) l (map plain_name segs.now)) }
        ensures stays { OnOk result (Stays self.old self.new) }
    {
        for seg in segs {
            self.add_unit(site, seg)?;
        }
        Ok(())
    }
}

impl Progress {
    /// The number of a path in which terms stand.
    pub fn number(&mut self, path: &Below<'_>) -> Result<PathId, NoMemory>
        ensures holds { (l : Listed) → Holds self.old l → Holds self.new l }
        ensures at { IfOk result (λ id. StandsAt self.new.space id (path_below self.old.space.paths path.now)) }
        ensures stays { Stays self.old self.new }
    {
        self.space.number(path)
    }
}

impl Progress {
    /// Adds names that were asked, and leaves none.
    pub fn keep_uses(&mut self, uses: &mut Vec<Group>) -> Result<(), NoMemory>
        requires { AreKnown self.old.space uses.old.items }
        ensures holds { OnOk result ((l : Listed) → Holds self.old l →
            Holds self.new (with_more l (uses_of self.old.space uses.old.items))) }
        ensures none { OnOk result (uses.new.items ≡ []) }
        ensures space { self.new.space ≡ self.old.space }
    {
        if uses.is_empty() {
            return Ok(());
        }
        add_groups(&mut self.uses, uses)
    }
}

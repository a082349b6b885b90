//! The walk over a table whose code outside methods may run.
ghost use Rattle.std.specs.Prelude.{◌≡◌, [], IfOk, OnOk, Some, is_some, not, ◌&&◌, ◌||◌, IfSome, option_map};
ghost use Rattle.std.specs.Option.{option_copied};
ghost use Rattle.std.specs.FinSet as set;
ghost use Rattle.aml_namespace.specs.Namespace.{namespace_of, found, declared_at};
ghost use Rattle.aml_namespace.specs.Known.{StandsFor, StandsAt, path_at};
ghost use Rattle.aml_space.specs.Below.{path_below};
ghost use Rattle.aml_load.specs.Declaring.{Listed};
ghost use Rattle.aml_load.specs.Running.{opened_at, object_at, scope_at};
ghost use Rattle.aml_namespace.specs.Kinds.{kind_in};
ghost use Rattle.aml_load.specs.Walking.{at_site, GivesIn, Holds, IsInside, Stays, AreBelow, IsPlain, Walks};
ghost use Rattle.aml_load.specs.Loading.{sure_here};
ghost use Rattle.aml_load.specs.Runner.{IsFlat, IsSiteOf, Comes};
ghost use Rattle.aml_load.specs.Hearing.{enters_as, flat_by, head_enters};
ghost use Rattle.aml_load.specs.HearingViews.{head_view};

use crate::ears::{Head, Shape};
use crate::faults::LoadFault;
use crate::roles::kind_of;
use crate::sites::Site;
use crate::walking::Progress;
use aml_code::{Arity, Locals, Name, NoMemory, Position, Role};
use aml_space::{Below, BodyNames, Kind, PathId, SpaceFault};
use std::alloc::Global;

/// The most levels of terms inside each other.
pub const MOST_LEVELS: u16 = 512;

impl Site {
    /// Under a path, which has a number from now on.
    pub fn under(
        &self,
        progress: &mut Progress,
        path: &Below<'_>,
        sure: bool,
    ) -> Result<Site, LoadFault>
        ensures site { IsSiteOf result (λ scope. record self.now { scope = scope; sure = sure }) }
        ensures at { IfOk result (λ inner. StandsAt progress.new.space inner.scope
            (path_below progress.old.space.paths path.now)) }
        ensures holds { (l : Listed) → Holds progress.old l → Holds progress.new l }
        ensures stays { Stays progress.old progress.new }
    {
        let scope = progress.number(path)?;
        Ok(Site {
            scope,
            sure,
            ..*self
        })
    }

    /// Inside a term that may not run.
    fn in_block(&self) -> Site
        ensures { result ≡ record self.now { sure = not self.now.any_run && self.now.sure } }
    {
        Site {
            sure: !self.any_run && self.sure,
            ..*self
        }
    }
}

/// What is left of a span: at which level of lines, with how many levels, in which position, from which offset on, and
/// where it ends.
#[derive(Drop, Clone, Copy)]
pub struct Rest {
    pub level: u32,
    pub levels: u16,
    pub position: Position,
    pub at: u32,
    pub end: u32,
}

/// How many arguments names take in a term outside methods: none where nothing tells.
#[derive(Drop)]
pub struct RunNames<'a> {
    pub names: BodyNames<'a>,
}

impl Arity for RunNames<'_> {
    ghost use Rattle.std.specs.Prelude.{◌≡◌, Some};
    ghost use Rattle.std.specs.Option.{unwrap_or};
    ghost use Rattle.aml_namespace.specs.Runs.{agreed_arity};
    ghost use Rattle.aml_namespace.specs.Known.{outlook_in};

    ghost arity = { λ self locals name. Some (unwrap_or
        (agreed_arity (outlook_in self.names.known) self.names.unknown_zero self.names.method locals name) 0) };

    fn count(&self, alloc: Global, locals: &Locals, name: &Name) -> Result<Option<u8>, NoMemory> {
        let count = self.names.count(alloc, locals, name)?;
        Ok(Some(count.unwrap_or(0)))
    }
}

impl Progress {
    /// Whether some table names what a name may mean.
    fn is_known(&self, site: &Site, name: &Name) -> Result<bool, NoMemory>
        ensures { (l : Listed) → StandsFor self.now.space l.entries → IfOk result (λ b. b
            ≡ is_some (found (namespace_of l.entries) set.empty (path_at self.now.space site.now.scope) name.now)) }
    {
        let above = self.space.find_from(site.scope, name)?;
        Ok(above.is_some())
    }

    /// Whether a name that leads nowhere in every run has no path that a Scope may open.
    fn is_shut(&self, site: &Site, name: &Name) -> Result<bool, NoMemory>
        ensures { (l : Listed) → StandsFor self.now.space l.entries → IfOk result (λ b. b ≡ (not site.now.any_run
            || is_some (found (namespace_of l.entries) set.empty (path_at self.now.space site.now.scope) name.now))) }
    {
        if !site.any_run {
            return Ok(true);
        }
        self.is_known(site, name)
    }

    /// The path that a Scope opens. `ScopeMissing` where there is none.
    #[tactic(auto, unfolding(crate::specs::Running::opened_at, crate::specs::Declaring::place_at))]
    fn opened_path<'n>(&self, site: &Site, name: Option<&'n Name>) -> Result<Below<'n>, LoadFault>
        ensures below { AreBelow self.now.space result }
        ensures gives { GivesIn (path_below self.now.space.paths) self.now.space result (λ l.
            opened_at (at_site self.now.space site.now) l.entries (option_copied name.entry)) }
    {
        let Some(name) = name else {
            return Err(LoadFault::Space(site.table, SpaceFault::AboveRoot));
        };
        let path = self.placed_path(site, name)?;
        match self.found_above(site, name)? {
            Some(above) => Ok(Below {
                above,
                segs: name.segs.as_slice(),
            }),
            None => {
                if self.is_shut(site, name)? {
                    let missing = SpaceFault::ScopeMissing(self.space.to_path(&path)?);
                    Err(LoadFault::Space(site.table, missing))
                } else {
                    Ok(path)
                }
            }
        }
    }

    /// Whether what stands inside an object is declared in every run, which declares this path.
    fn is_sure_inside(&self, here: &Site, path: &Below<'_>) -> bool
        ensures { (l : Listed) → StandsFor self.now.space l.entries → result
            ≡ (sure_here (at_site self.now.space here.now) l.entries (path_below self.now.space.paths path.now)
            && not (here.now.any_run && is_some (declared_at l.entries (path_below self.now.space.paths path.now)))) }
    {
        if !here.any_run {
            return here.sure;
        }
        let declared = self.space.is_declared(path);
        self.is_sure_here(here, path, None) && !declared
    }

    /// Declares an object, and opens its path.
    #[tactic(auto, unfolding(crate::specs::Running::object_at))]
    fn enter_object(
        &mut self,
        here: &Site,
        name: Option<&Name>,
        kind: Kind<PathId>,
    ) -> Result<Site, LoadFault>
        requires within { IsInside self.old here.now }
        requires plain { IsPlain kind (kind_in [] kind) }
        ensures comes { Comes self.old self.new here.now result (λ f.
            object_at f (option_copied name.entry) (kind_in [] kind)) }
        ensures within { IfOk result (IsInside self.new) }
        ensures runs { IfOk result (λ inner. inner.any_run ≡ here.now.any_run) }
        ensures stays { OnOk result (Stays self.old self.new) }
    {
        let path = self.own_path(here, name)?;
        let sure = self.is_sure_inside(here, &path);
        self.declare(here, &path, kind)?;
        here.under(self, &path, sure)
    }

    /// Opens the path of a Scope.
    #[tactic(auto, unfolding(crate::specs::Running::scope_at))]
    fn enter_scope(&mut self, here: &Site, name: Option<&Name>) -> Result<Site, LoadFault>
        requires { IsInside self.old here.now }
        ensures comes { Comes self.old self.new here.now result (λ f. scope_at f (option_copied name.entry)) }
        ensures within { IfOk result (IsInside self.new) }
        ensures runs { IfOk result (λ inner. inner.any_run ≡ here.now.any_run) }
        ensures stays { OnOk result (Stays self.old self.new) }
    {
        self.expect_search(here, name);
        let path = self.opened_path(here, name)?;
        let sure = here.sure && (!here.any_run || self.space.is_scope(&path));
        here.under(self, &path, sure)
    }
}

#[tactic(auto, unfolding(crate::specs::Hearing::flat_by))]
impl Progress {
    /// Declares what a term declares by its head, with the span of its body, inside which no terms stand.
    fn declare_flat(&mut self, here: &Site, head: &Head, span: (u32, u32)) -> Result<(), LoadFault>
        requires { IsInside self.old here.now }
        ensures walks { Walks self.old self.new result (λ l. flat_by head.now.role
            (head_view self.old.space head.now) (at_site self.old.space here.now) l span) }
        ensures stays { OnOk result (Stays self.old self.new) }
    {
        match head.role {
            Role::Method => self.declare_one_method(
                here,
                head.last(),
                head.byte.unwrap_or(0),
                span,
            ),
            Role::Alias => self.declare_one_alias(here, head.source.as_ref(), head.last()),
            Role::External => self.declare_external(here, head.last(), head.byte.unwrap_or(0)),
            Role::Fields => self.add_segments(here, head.units.as_slice()),
            _ => Ok(()),
        }
    }
}

#[tactic(auto, unfolding(crate::specs::Hearing::enters_as))]
impl Progress {
    /// The same, and says that what stands inside stands where the term does.
    fn enter_flat(&mut self, here: &Site, head: &Head, span: (u32, u32)) -> Result<Site, LoadFault>
        requires { IsInside self.old here.now }
        ensures comes { IsFlat head.now.role → Comes self.old self.new here.now result (λ f.
            enters_as head.now.role (head_view self.old.space head.now) f span) }
        ensures within { IfOk result (IsInside self.new) }
        ensures runs { IfOk result (λ inner. inner.any_run ≡ here.now.any_run) }
        ensures stays { OnOk result (Stays self.old self.new) }
    {
        self.declare_flat(here, head, span)?;
        Ok(*here)
    }

    /// Does what an opcode does by its head, with the span of its body.
    fn enter_operation(
        &mut self,
        here: &Site,
        head: &Head,
        span: (u32, u32),
    ) -> Result<Site, LoadFault>
        requires { IsInside self.old here.now }
        ensures comes { Comes self.old self.new here.now result (λ f.
            enters_as head.now.role (head_view self.old.space head.now) f span) }
        ensures within { IfOk result (IsInside self.new) }
        ensures runs { IfOk result (λ inner. inner.any_run ≡ here.now.any_run) }
        ensures stays { OnOk result (Stays self.old self.new) }
    {
        match head.role {
            Role::Declares(object) => self.enter_object(here, head.last(), kind_of(object)),
            Role::Scope => self.enter_scope(here, head.last()),
            Role::Guard | Role::Other => Ok(here.in_block()),
            _ => self.enter_flat(here, head, span),
        }
    }
}

#[tactic(auto, unfolding(crate::specs::Hearing::head_enters, crate::specs::Hearing::enters_by))]
impl Progress {
    /// Does what a term does by its head, with the span of its body, and says where the terms inside it stand.
    pub fn enter_head(
        &mut self,
        here: &Site,
        head: &Head,
        span: (u32, u32),
    ) -> Result<Site, LoadFault>
        requires { IsInside self.old here.now }
        ensures comes { Comes self.old self.new here.now result (λ f.
            head_enters (Some (head_view self.old.space head.now)) f span) }
        ensures within { IfOk result (IsInside self.new) }
        ensures runs { IfOk result (λ inner. inner.any_run ≡ here.now.any_run) }
        ensures stays { OnOk result (Stays self.old self.new) }
    {
        match head.shape {
            Shape::Call => Ok(*here),
            _ => self.enter_operation(here, head, span),
        }
    }

    /// The same of what was heard of a term, if anything was.
    pub fn enter_heard(
        &mut self,
        here: &Site,
        head: Option<&Head>,
        span: (u32, u32),
    ) -> Result<Site, LoadFault>
        requires { IsInside self.old here.now }
        ensures comes { Comes self.old self.new here.now result (λ f.
            head_enters (option_map (λ h. head_view self.old.space h.now) head.entry) f span) }
        ensures within { IfOk result (IsInside self.new) }
        ensures runs { IfOk result (λ inner. inner.any_run ≡ here.now.any_run) }
        ensures stays { OnOk result (Stays self.old self.new) }
    {
        match head {
            None => Ok(*here),
            Some(head) => self.enter_head(here, head, span),
        }
    }
}

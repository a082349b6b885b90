//! The terms of a loaded set outside the methods' bodies, each where it stands.
ghost use Rattle.std.specs.Prelude.{◌≡◌, ◌⊎◌, ◌++◌, ◌∷◌, ◌<◌, [], List, ℕ, Bool, IfOk, IfErr, OnOk, length};
ghost use Rattle.aml_code.specs.View.{node_view, nodes_view};
ghost use Rattle.aml_namespace.specs.Namespace.{Entry};
ghost use Rattle.aml_set.specs.Views.{trees_view};
ghost use Rattle.aml_load.specs.Declaring.{Listed};
ghost use Rattle.aml_load.specs.Runner.{Came};
ghost use Rattle.aml_load.specs.Standing.{stands, set_stands};
ghost use Rattle.aml_load.specs.Standings.{standings_view, AreStanding, Finds, set_declares, enters_at};
ghost use Rattle.aml_load.specs.Standings.{walk, walk_within, walk_all, walk_tables, met, met_within, met_all, met_tables};
ghost use Rattle.aml_load.specs.Loading.{LoadsTo};
ghost use Rattle.aml_load.specs.Tables.{Fails};
ghost use Rattle.aml_load.specs.Walking.{at_site, Holds, IsInside, Stays};
ghost use Rattle.aml_namespace.specs.Known.{Known};

use crate::ears::Head;
use crate::faults::LoadFault;
use crate::heads::span_of;
use crate::loading::first_progress;
use crate::sites::Site;
use crate::walking::Progress;
use aml_code::{NoMemory, Node, Path, Tail};
use aml_names::ArgumentCount;
use aml_space::{PathId, Space};
use std::alloc::Global;

/// A term of a table outside the methods' bodies, and where it stands.
#[derive(Clone, Copy)]
pub struct StandingTerm<'a> {
    /// The table, by its place in load order from 0 on.
    pub table: usize,
    /// The number of the scope in which it stands.
    scope: u32,
    /// Whether it stands there in every run of the code outside methods. Where that code may not run, each does.
    pub sure: bool,
    pub term: &'a Node,
}

impl StandingTerm<'_> {
    /// The scope in which it stands, by its number in the space of the terms.
    pub fn scope(&self) -> PathId
        ensures { result ≡ self.now.scope }
    {
        PathId::new(self.scope as usize)
    }
}

/// Terms outside the methods' bodies, and the space by which the numbers of their scopes are read.
#[derive(Drop)]
pub struct StandingTerms<'a> {
    /// What the tables of the terms declare.
    pub space: Space,
    pub terms: Vec<StandingTerm<'a>>,
}

/// Adds a term.
fn add_term<'a>(
    site: &Site,
    term: &'a Node,
    found: &mut Vec<StandingTerm<'a>>,
) -> Result<(), NoMemory>
    ensures found { (k : Known) → OnOk result (standings_view k found.new.items ≡ standings_view k found.old.items ++
        stands (at_site k site.now) (node_view term.now) ∷ []) }
    ensures numbered { (k : Known) → site.now.scope < length k.paths → AreStanding k found.old.items →
        OnOk result (AreStanding k found.new.items) }
{
    let standing = StandingTerm {
        table: site.table,
        scope: site.scope.index() as u32,
        sure: site.sure,
        term,
    };
    found.push(standing)?;
    Ok(())
}

impl Progress {
    /// Declares what a term declares itself, and says where the terms inside it stand.
    fn enter_term(&mut self, site: &Site, term: &Node) -> Result<Site, LoadFault>
        requires { IsInside self.old site.now }
        ensures enters { (l : Listed) → Holds self.old l → Came self.new site.now result
            (enters_at (at_site self.old.space site.now) l (node_view term.now)) }
        ensures inside { IfOk result (IsInside self.new) }
        ensures stays { OnOk result (Stays self.old self.new) }
    {
        let head = Head::of_term(self.alloc, site, term)?;
        let span = span_of(term);
        self.enter_heard(site, head.as_ref(), span)
    }
}

/// Finds a term and those inside it, and declares what they declare.
#[cycle(find)]
fn find_term<'a>(
    progress: &mut Progress,
    site: &Site,
    term: &'a Node,
    found: &mut Vec<StandingTerm<'a>>,
) -> Result<(), LoadFault>
    requires { IsInside progress.old site.now }
    ensures finds { Finds progress.old progress.new found.old.items found.new.items result
        (λ l. walk (at_site progress.old.space site.now) l (node_view term.now))
        (λ l. met (at_site progress.old.space site.now) l (node_view term.now)) }
    ensures stays { OnOk result (Stays progress.old progress.new) }
{
    add_term(site, term, found)?;
    let inner = progress.enter_term(site, term)?;
    find_inside(progress, &inner, term, found)
}

/// Finds the terms inside a term, which stand at this site.
#[cycle(find)]
#[tactic(auto, unfolding(crate::specs::Standings::walk_inside, crate::specs::Standings::met_inside))]
fn find_inside<'a>(
    progress: &mut Progress,
    site: &Site,
    term: &'a Node,
    found: &mut Vec<StandingTerm<'a>>,
) -> Result<(), LoadFault>
    requires { IsInside progress.old site.now }
    ensures finds { Finds progress.old progress.new found.old.items found.new.items result
        (λ l. walk_within (at_site progress.old.space site.now) l (node_view term.now))
        (λ l. met_within (at_site progress.old.space site.now) l (node_view term.now)) }
    ensures stays { OnOk result (Stays progress.old progress.new) }
{
    match term {
        Node::Op {
            tail: Tail::Terms(terms),
            ..
        } => find_terms(progress, site, terms.as_slice(), found),
        _ => Ok(()),
    }
}

/// Finds terms and those inside them, in the order of the text.
#[cycle(find)]
#[tactic(auto, unfolding(crate::specs::Standings::walk_all, crate::specs::Standings::met_all))]
fn find_terms<'a>(
    progress: &mut Progress,
    site: &Site,
    terms: &'a [Node],
    found: &mut Vec<StandingTerm<'a>>,
) -> Result<(), LoadFault>
    requires { IsInside progress.old site.now }
    ensures finds { Finds progress.old progress.new found.old.items found.new.items result
        (λ l. walk_all (at_site progress.old.space site.now) l (nodes_view terms.now))
        (λ l. met_all (at_site progress.old.space site.now) l (nodes_view terms.now)) }
    ensures stays { OnOk result (Stays progress.old progress.new) }
{
    for term in terms {
        find_term(progress, site, term, found)?;
    }
    Ok(())
}

/// Finds the terms of all tables, each from the root.
#[tactic(auto, unfolding(crate::specs::Standings::walk_tables, crate::specs::Standings::met_tables))]
fn find_tables<'a>(
    progress: &mut Progress,
    any_run: bool,
    trees: &'a [Vec<Node>],
    found: &mut Vec<StandingTerm<'a>>,
) -> Result<(), LoadFault>
    ensures { Finds progress.old progress.new found.old.items found.new.items result
        (λ l. walk_tables any_run 0 l (trees_view trees.now))
        (λ l. met_tables any_run 0 l (trees_view trees.now)) }
{
    for table in 0..trees.len() {
        let root = progress.root_site(table, any_run);
        find_terms(progress, &root, trees[table].as_slice(), found)?;
    }
    Ok(())
}

/// The terms of all tables, where the user gives these counts.
fn found_terms<'a>(
    alloc: Global,
    trees: &'a [Vec<Node>],
    givens: &[(Path, ArgumentCount)],
    any_run: bool,
) -> Result<StandingTerms<'a>, LoadFault>
    ensures found { IfOk result (λ x.
        standings_view x.space x.terms.items ≡ set_stands any_run givens.now (trees_view trees.now)) }
    ensures forward { IfErr result (λ e. Fails e (set_declares any_run givens.now (trees_view trees.now))) }
{
    let mut progress = first_progress(alloc, givens)?;
    let mut found = Vec::new(alloc);
    find_tables(&mut progress, any_run, trees, &mut found)?;
    Ok(StandingTerms {
        space: progress.space,
        terms: found,
    })
}

/// The terms of a loaded set outside the methods' bodies, each with the scope in which the load places what it
/// declares: in load order and in the order of the text, a term before those inside it.
///
/// `trees` are the terms of each table, as a set has them that was loaded with these counts (`givens`): by
/// `load_any_run` where `any_run` says so, else by `load`. The terms of another set may be refused here, by the fault
/// at which declaring them stops.
pub fn standing_terms<'a>(
    alloc: Global,
    trees: &'a [Vec<Node>],
    givens: &[(Path, ArgumentCount)],
    any_run: bool,
) -> Result<StandingTerms<'a>, LoadFault>
    // Just these terms, each where it stands.
    ensures found { IfOk result (λ x.
        standings_view x.space x.terms.items ≡ set_stands any_run givens.now (trees_view trees.now)) }
    // A refusal for another cause than memory comes only where no tables load to these trees.
    ensures complete { IfErr result (λ e. (e ≡ LoadFault.NoMemory) ⊎ ((unknown_zero : Bool) (tables : List (List ℕ))
        (es : List Entry) → LoadsTo any_run unknown_zero givens.now tables (trees_view trees.now) es → ⊥)) }
    // Which fault it is: the first that is met in declaring what the terms declare.
    ensures forward { IfErr result (λ e. Fails e (set_declares any_run givens.now (trees_view trees.now))) }
{
    found_terms(alloc, trees, givens, any_run)
}

//! The bodies of all methods, read by workers, and what is kept of them.
ghost use Rattle.std.specs.Prelude.{◌≡◌, ◌≤◌, ℕ, List, IfOk, IfErr, length};
ghost use Rattle.aml_set.specs.Views.{body_in_set};
ghost use Rattle.acpidis.specs.Refusals.{IsWant};
ghost use Rattle.acpidis.specs.Bodies.{AreBodies, AreDrawn, CanRead, IsItsBody, Reading, ReadsIn, ReadsOf, reading_of};
ghost use Rattle.acpidis.specs.Checks.{AreKeptOf};

use crate::crew::Crew;
use crate::refusal::Refusal;
use aml_code::CodeFault;
use aml_load::read_span;
use aml_pool::{Gate, NoMemory, PoolFault, Results, Work, harvest};
use aml_set::{Method, TableSet};
use asl_text::Body;
use std::alloc::Global;
use std::sync::Wait;
use std::thread::Threads;

/// A body of a loaded set that is to be read, with its method and that method's number.
#[derive(Clone, Copy)]
pub(crate) struct Unread<'a, 'b> {
    pub(crate) alloc: Global,
    pub(crate) set: &'a TableSet<'b>,
    pub(crate) unknown_zero: bool,
    pub(crate) number: u32,
    pub(crate) method: &'a Method,
    pub(crate) bytes: &'a [u8],
}

impl<'a, 'b> Unread<'a, 'b> {
    /// Its terms, or why it can't be read.
    pub(crate) fn read(&self) -> Result<Body, NoMemory>
        requires { IsItsBody self.now }
        ensures { IfOk result (λ body.
            ReadsIn self.now.unknown_zero self.now.set.now self.now.method.now (reading_of body)) }
    {
        match read_span(
            self.alloc,
            self.bytes,
            &self.set.space,
            self.method,
            self.unknown_zero,
        ) {
            Ok(nodes) => Ok(Body::Tree(nodes)),
            Err(CodeFault::NoMemory) => Err(NoMemory),
            Err(fault) => Ok(Body::Raw(fault)),
        }
    }
}

/// What a worker keeps of a body.
pub(crate) trait Keep {
    type Kept;

    /// What is promised of it, by the body's number, its bytes, and what they read as.
    ghost keeps: { Self → ℕ → List ℕ → Reading → Self.Kept → Type 0 };

    /// Reads the body, and gives what is kept of it, or `NoMemory` where a growth was refused.
    fn keep(&self, unread: &Unread<'_, '_>) -> Result<Self::Kept, NoMemory>
        requires { IsItsBody unread.now }
        ensures { IfOk result (λ kept. (reading : Reading) ×
            (ReadsIn unread.now.unknown_zero unread.now.set.now unread.now.method.now reading ×
            keeps self.now unread.now.number unread.now.bytes.now reading kept)) };
}

/// The bodies of a loaded set, each to be read by its method's number, of which something is kept.
#[derive(Drop)]
struct Keeping<'a, 'b, K> {
    alloc: Global,
    set: &'a TableSet<'b>,
    unknown_zero: bool,
    keep: &'a K,
}

impl<'a, 'b, K: Keep> Work for Keeping<'a, 'b, K> {
    type Done = K::Kept;

    ghost can_work = { λ w n. CanRead w.set.now n };

    ghost gives = { λ w n d. (reading : Reading) × ReadsOf w.unknown_zero w.set.now n reading ×
        K.keeps w.keep.now n (body_in_set w.set.now n) reading d };

    fn work(&self, number: u32) -> Result<K::Kept, NoMemory> {
        let method = &self.set.methods[number as usize];
        let bytes = self.set.span(method);
        self.keep.keep(&Unread {
            alloc: self.alloc,
            set: self.set,
            unknown_zero: self.unknown_zero,
            number,
            method,
            bytes,
        })
    }
}

/// The crew reads the bodies of all methods, and keeps something of each. With `unknown_zero` a name that leads nowhere
/// counts as one without arguments. A body that can't be read is raw, and refuses nothing.
pub(crate) fn keep_bodies<R: Threads + Wait + Sync, G: Gate + Sync, K: Keep + Sync>(
    crew: &Crew<'_, R, G>,
    set: &TableSet<'_>,
    unknown_zero: bool,
    keep: &K,
) -> Result<Results<K::Kept>, Refusal>
where
    K::Kept: Send + Drop,
    requires workers { (1 ≤ crew.now.workers) × (crew.now.workers ≤ 64) }
    requires few { length set.now.methods.items ≤ 1048576 }

    // It is kept of the body of each method.
    ensures kept { IfOk result (λ r.
        AreKeptOf (λ n. K.keeps keep.now n (body_in_set set.now n)) unknown_zero set.now r.items.items) }
    ensures each { IfOk result (λ r. length r.items.items ≡ length set.now.methods.items) }
    // Each method was drawn by one worker, once.
    ensures drawn { IfOk result (λ r. AreDrawn crew.now.workers (length set.now.methods.items) r.drawn.items) }
    // A refusal says nothing of the set; one worker needs no thread.
    ensures want { IfErr result IsWant }
    ensures one_needs_no_thread { crew.now.workers ≡ 1 → IfErr result (λ e. e ≡ Refusal.NoMemory) }
{
    let work = Keeping {
        alloc: crew.alloc,
        set,
        unknown_zero,
        keep,
    };
    let count = set.methods.len() as u32;
    match harvest(crew.rt, crew.alloc, crew.workers, count, &work, crew.gate) {
        Ok(found) => Ok(found),
        Err(fault) => Err(pool_refusal(fault)),
    }
}

/// The caller alone reads them one after the other, and keeps something of each.
pub(crate) fn keep_bodies_alone<K: Keep>(
    alloc: Global,
    set: &TableSet<'_>,
    unknown_zero: bool,
    keep: &K,
) -> Result<Vec<K::Kept>, Refusal>
where
    K::Kept: Drop,
    requires few { length set.now.methods.items ≤ 1048576 }
    ensures kept { IfOk result (λ r.
        AreKeptOf (λ n. K.keeps keep.now n (body_in_set set.now n)) unknown_zero set.now r.items) }
    ensures each { IfOk result (λ r. length r.items ≡ length set.now.methods.items) }
    ensures memory { IfErr result (λ e. e ≡ Refusal.NoMemory) }
{
    let work = Keeping {
        alloc,
        set,
        unknown_zero,
        keep,
    };
    let count = set.methods.len();
    let mut kept = Vec::with_capacity(alloc, count)?;
    for number in 0..count {
        match work.work(number as u32) {
            Ok(found) => kept.push(found)?,
            Err(_) => return Err(Refusal::NoMemory),
        }
    }
    Ok(kept)
}

/// What a fault of the pool refuses a run for.
fn pool_refusal(fault: PoolFault) -> Refusal
    ensures want { IsWant result }
    ensures thread { fault ≡ PoolFault.NoThread → result ≡ Refusal.NoThread }
    ensures memory { fault ≡ PoolFault.NoMemory → result ≡ Refusal.NoMemory }
{
    match fault {
        PoolFault::NoThread => Refusal::NoThread,
        PoolFault::NoMemory => Refusal::NoMemory,
    }
}

/// Each body is kept as it is.
#[derive(Clone, Copy)]
struct Whole;

impl Keep for Whole {
    type Kept = Body;

    ghost keeps = { λ w n bytes reading kept. reading ≡ reading_of kept };

    fn keep(&self, unread: &Unread<'_, '_>) -> Result<Body, NoMemory> {
        unread.read()
    }
}

/// The crew reads the bodies of all methods, and keeps them.
pub(crate) fn read_bodies<R: Threads + Wait + Sync, G: Gate + Sync>(
    crew: &Crew<'_, R, G>,
    set: &TableSet<'_>,
    unknown_zero: bool,
) -> Result<Results<Body>, Refusal>
    requires workers { (1 ≤ crew.now.workers) × (crew.now.workers ≤ 64) }
    requires few { length set.now.methods.items ≤ 1048576 }

    // Each method has what its body reads as, and no other.
    ensures bodies { IfOk result (λ r. AreBodies unknown_zero set.now r.items.items) }
    ensures each { IfOk result (λ r. length r.items.items ≡ length set.now.methods.items) }
    ensures drawn { IfOk result (λ r. AreDrawn crew.now.workers (length set.now.methods.items) r.drawn.items) }
    ensures want { IfErr result IsWant }
    ensures one_needs_no_thread { crew.now.workers ≡ 1 → IfErr result (λ e. e ≡ Refusal.NoMemory) }
{
    keep_bodies(crew, set, unknown_zero, &Whole)
}

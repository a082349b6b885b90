//! Code, dumps, tables, works and gates that several tests hand in, and what they ask of a load and of a listing.
ghost use Rattle.std.specs.Prelude.{◌≡◌, ◌*◌, ◌≤◌, ⊤, Some, IfOk, length, true};
ghost use Rattle.acpi_tables.specs.Order.{AreTaken};
ghost use Rattle.aml_set.specs.Code.{AreShort};
ghost use Rattle.aml_set.specs.Views.{codes_view};

use acpi_tables::Dump;
use acpidis::{Options, Refusal, disassemble, run};
use aml_code::{Arity, Locals};
use aml_load::{LoadFault, load};
use aml_names::{ArgumentCount, Name, Path};
use aml_pool::{Board, FreeGate, Gate, NoMemory, PoolFault, Results, Share, Work, crew, harvest};
use aml_set::Loaded;
use aml_text::{Body, Listing};
use std::alloc::{AllocError, Global};
use std::env::Env;
use std::io::Write;
use std::sync::Wait;
use std::sync::atomic::Ordering::SeqCst;
use std::sync::atomic::{AtomicBool, AtomicU64};
use std::thread::{self, Threads};

/// The AML of tables that load.
pub fn codes() -> [&'static [u8]; 14] {
    [
        b"\x14\x08FOO_\x01\xA4h".as_slice(),
        b"\x08BAR_\x0A\x05\x14\x0BFOO_\x02\xA4rhi\x00".as_slice(),
        b"\x08BAR_\x0A\x05\x14\x0CFOO_\x00pBAR_`".as_slice(),
        b"\x14\x0EAAAA\x00\xA4BBBB\x01\x0A\x05\x14\x06BBBB\x02".as_slice(),
        b"\x14G\x00FOO_\x00\x08BAR_\x00[\x82\x05DEV0[\x83\x0BCPU0\x01\x10\x04\x00\x00\x06[\x84\x08PWR0\x01\
            \x02\x00[\x85\x05TZ00[\x01MTX0\x00[\x02EVT0[\x88DRG0\x0D\x00\x0D\x00\x0D\x00\x8CBAR_\x00BYT0"
            .as_slice(),
        b"\x10\x03\\\x00\x10\x02\x00".as_slice(),
        b"\xA0\x10\x00\x15AAAA\x08\x02\x15BBBB\x05\x00".as_slice(),
        b"\x14\x06MMMM\x03\x06MMMMALIA\x14\x0ECALL\x00ALIA`ab\xA3".as_slice(),
        b"\x14\x06BBBB\x01\x10\x1A\\_SB_[\x82\x12DEV0\x14\x0CAAAA\x00\xA4BBBB`".as_slice(),
        b"[\x80REG0\x01\x0B\x00\x04\x0A\x10[\x81\x10REG0\x01\x00\x08FLD0\x08\x01\x01\x00".as_slice(),
        b"[\x81J\x02GNVS\x01ABCDH\x00\x00\x80\x00\x01\x01\x03\x00\x02\\._SB_GPIO\x03\x01\x0B\x04\x02\x11\
            \x05\x0A\x02\x00y"
            .as_slice(),
        b"\x15BBBB\x08\x02\x14\x0EAAAA\x00\xA4BBBB\x01\x0A\x05".as_slice(),
        b"\x14\x17AAAA\x00BBBB\x01\x01\x08BBBB\x00\xA4BBBB\x14\x06BBBB\x02".as_slice(),
        b"\x08AAAB\x00[\x82\x0BAAAA\x08ZZZZ\x00\x08AAA_\x00\x08\\_GL_\x00\x14\x07\\_OSI\x02".as_slice(),
    ]
}

/// What was wanted, and refused.
#[derive(Clone, Copy)]
pub enum Want {
    Memory,
    Thread,
}

impl From<AllocError> for Want {
    fn from(_: AllocError) -> Want {
        Want::Memory
    }
}

impl From<PoolFault> for Want {
    fn from(fault: PoolFault) -> Want {
        match fault {
            PoolFault::NoMemory => Want::Memory,
            PoolFault::NoThread => Want::Thread,
        }
    }
}

/// Whether a growth or the start of a thread was refused. `tests/refusals.c` sets this variable once it refuses one.
fn is_refused<E: Env>(env: &E) -> bool {
    let mut word = [0];
    matches!(env.var("REFUSED", &mut word), Ok(1)) && word == *b"1"
}

/// Whether an answer is the whole one, or a want where something was refused.
pub fn is_whole_or_want<E: Env>(env: &E, answer: Result<bool, Want>) -> bool {
    match answer {
        Ok(whole) => whole,
        Err(_) => is_refused(env),
    }
}

/// Whether an answer is the whole one, or the want of memory where something was refused.
pub fn is_whole_or_no_memory<E: Env>(env: &E, answer: Result<bool, Want>) -> bool {
    !matches!(answer, Err(Want::Thread)) && is_whole_or_want(env, answer)
}

/// Whether an answer is the whole one, or the want of a thread where something was refused.
pub fn is_whole_or_no_thread<E: Env>(env: &E, answer: Result<bool, Want>) -> bool {
    !matches!(answer, Err(Want::Memory)) && is_whole_or_want(env, answer)
}

/// No name takes an argument.
#[derive(Clone, Copy)]
pub struct Bare;

impl Arity for Bare {
    ghost arity = { λ _ _ _. Some 0 };

    fn count(
        &self,
        _alloc: Global,
        _locals: &Locals,
        _name: &Name,
    ) -> Result<Option<u8>, aml_code::NoMemory> {
        Ok(Some(0))
    }
}

/// The square of the number.
pub struct Square;

impl Work for Square {
    type Done = u64;

    ghost can_work = { λ _ _. ⊤ };

    ghost gives = { λ _ n d. d ≡ n * n };

    fn work(&self, number: u32) -> Result<u64, NoMemory> {
        Ok(u64::from(number) * u64::from(number))
    }
}

/// Any checksum is taken.
pub fn any_sum(alloc: Global) -> Options {
    Options {
        any_sum: true,
        any_run: false,
        unknown_zero: false,
        externals: Vec::new(alloc),
    }
}

/// What a test asks of a load.
pub trait OfLoad {
    fn holds(&self, alloc: Global, loaded: &Loaded<'_>) -> Result<bool, Want>
        requires { AreShort (codes_view loaded.now.tables.items) };
}

/// Whether that holds of what a load answers.
pub fn holds_of_loaded<L: OfLoad>(
    alloc: Global,
    answer: &Result<Loaded<'_>, LoadFault>,
    asked: &L,
) -> Result<bool, Want>
    requires { IfOk answer.now (λ x. AreShort (codes_view x.tables.items)) }
{
    match answer {
        Ok(loaded) => asked.holds(alloc, loaded),
        Err(LoadFault::NoMemory) => Err(Want::Memory),
        Err(_) => Ok(false),
    }
}

/// Whether that holds of the load of these tables.
pub fn holds_of_load<L: OfLoad>(
    alloc: Global,
    codes: &[&[u8]],
    givens: &[(Path, ArgumentCount)],
    asked: &L,
) -> Result<bool, Want>
    requires { AreShort (codes_view codes.now) }
{
    let answer = load(alloc, codes, givens);
    holds_of_loaded(alloc, &answer, asked)
}

/// What a test asks of a listing, in which it may change the bodies.
pub trait OfListing {
    fn holds(&self, alloc: Global, listing: &mut Listing<'_>) -> Result<bool, Want>
        requires short { AreShort (codes_view listing.old.loaded.tables.items) }
        requires few { length listing.old.loaded.methods.items ≤ 1048576 }
        requires taken { AreTaken listing.old.dumps.now true };
}

/// Whether that holds of what `disassemble` answers.
fn holds_of_listed<L: OfListing>(
    alloc: Global,
    answer: &mut Result<Listing<'_>, Refusal>,
    asked: &L,
) -> Result<bool, Want>
    requires limits { IfOk answer.old (λ x. AreShort (codes_view x.loaded.tables.items) ×
        (length x.loaded.methods.items ≤ 1048576)) }
    requires taken { IfOk answer.old (λ x. AreTaken x.dumps.now true) }
{
    match answer {
        Ok(listing) => asked.holds(alloc, listing),
        Err(Refusal::NoMemory) => Err(Want::Memory),
        Err(Refusal::NoThread) => Err(Want::Thread),
        Err(_) => Ok(false),
    }
}

/// Whether that holds of the listing of these dumps, by so many workers. A listing is let go here alone, since that
/// makes a long proof.
pub fn holds_of_listing<T: Threads + Wait + Sync, G: Gate + Sync, L: OfListing>(
    threads: &T,
    alloc: Global,
    dumps: &[Dump],
    workers: u32,
    gate: &G,
    asked: &L,
) -> Result<bool, Want>
    requires { (1 ≤ workers) × (workers ≤ 64) }
{
    let mut answer = disassemble(threads, alloc, dumps, any_sum(alloc), workers, gate);
    holds_of_listed(alloc, &mut answer, asked)
}

pub fn are_trees(bodies: &[Body]) -> bool {
    for body in bodies {
        if !matches!(body, Body::Tree(_)) {
            return false;
        }
    }
    true
}

/// The status of a run over these dumps by so many workers, with its text and its error lines to these writers.
pub fn status_of<T: Threads + Wait + Sync, G: Gate + Sync, W: Write, E: Write>(
    threads: &T,
    alloc: Global,
    dumps: &[Dump],
    workers: u32,
    gate: &G,
    out: &mut W,
    error: &mut E,
) -> u8
    requires { (1 ≤ workers) × (workers ≤ 64) }
{
    let options = any_sum(alloc);
    run(
        threads, alloc, dumps, options, workers, false, gate, out, error,
    )
}

/// Whether a run over these dumps by two workers behind this gate has status 0 and no error line.
pub fn runs_behind<T: Threads + Wait + Sync>(
    threads: &T,
    alloc: Global,
    dumps: &[Dump],
    gate: &Watch,
) -> bool {
    let mut out = Vec::new(alloc);
    let mut error = Vec::new(alloc);
    let status = status_of(threads, alloc, dumps, 2, gate, &mut out, &mut error);
    status == 0 && error.is_empty()
}

/// Whether an answer of so many workers has these items.
fn are_items(
    answer: &Result<Results<u64>, PoolFault>,
    workers: u32,
    items: &[u64],
) -> Result<bool, Want> {
    match answer {
        Ok(found) => Ok(found.items.as_slice() == items && found.drawn.len() == workers as usize),
        Err(fault) => Err(Want::from(*fault)),
    }
}

/// Whether so many workers answer these squares.
pub fn has_squares<T: Threads + Wait + Sync>(
    threads: &T,
    alloc: Global,
    workers: u32,
    squares: &[u64],
) -> Result<bool, Want>
    requires { (1 ≤ workers) × (workers ≤ 64) × (length squares.now ≤ 64) }
{
    let count = squares.len() as u32;
    let answer = harvest(threads, alloc, workers, count, &Square, &FreeGate);
    are_items(&answer, workers, squares)
}

/// Whether so many workers do all of seven pieces of work, after which the board is closed.
pub fn has_share<T: Threads + Wait + Sync>(
    threads: &T,
    alloc: Global,
    workers: u32,
) -> Result<bool, Want>
    requires { (1 ≤ workers) × (workers ≤ 64) }
{
    let Ok((board, seat)) = Board::new(alloc, 7) else {
        return Err(Want::Memory);
    };
    let Share { seat, done, drawn } = crew(
        threads, alloc, &board, seat, 0, workers, &Square, &FreeGate,
    )?;
    Ok(done.len() == 7 && drawn.len() == workers as usize && board.close(seat).numbers == 7)
}

/// Adds a dump.
pub fn push_dump(
    alloc: Global,
    dumps: &mut Vec<Dump>,
    address: Option<u64>,
    bytes: Vec<u8>,
) -> Result<(), AllocError> {
    dumps.push(Dump {
        name: String::new(alloc),
        address,
        bytes,
    })?;
    Ok(())
}

/// Adds a table with this signature and this content, whose checksum is any.
pub fn push_table(
    alloc: Global,
    dumps: &mut Vec<Dump>,
    address: Option<u64>,
    signature: &[u8; 4],
    content: &[u8],
) -> Result<(), AllocError> {
    let len = u32::try_from(content.len()).unwrap_or(0).saturating_add(36);
    let mut bytes = Vec::new(alloc);
    bytes.extend_from_slice(signature)?;
    bytes.extend_from_slice(&len.to_le_bytes())?;
    bytes.extend_from_slice(&[0; 28])?;
    bytes.extend_from_slice(content)?;
    push_dump(alloc, dumps, address, bytes)
}

/// The set of a DSDT with this AML.
pub fn dsdt_of(alloc: Global, code: &[u8]) -> Result<Vec<Dump>, AllocError> {
    let mut dumps = Vec::new(alloc);
    push_table(alloc, &mut dumps, None, b"DSDT", code)?;
    Ok(dumps)
}

/// How often a held call lets other threads run and looks again, before the gate counts as stuck and lets each call
/// pass: some 20 seconds.
const TURNS: u32 = 100_000_000;

/// Keeps its calls. The first call of each group of so many waits until the others of its group have entered.
#[derive(Drop)]
pub struct Watch {
    group: u64,
    entered: AtomicU64,
    stuck: AtomicBool,
    calls: Vec<AtomicU64>,
}

impl Watch {
    /// With room for so many calls.
    pub fn new(alloc: Global, group: u64, room: u32) -> Result<Watch, AllocError> {
        let mut calls = Vec::new(alloc);
        for _ in 0..room {
            calls.push(AtomicU64::new(0))?;
        }
        Ok(Watch {
            group,
            entered: AtomicU64::new(0),
            stuck: AtomicBool::new(false),
            calls,
        })
    }

    pub fn is_stuck(&self) -> bool {
        self.stuck.load(SeqCst)
    }

    /// Whether this worker entered with these numbers, in the order of its calls.
    pub fn has_list(&self, worker: u32, list: &[u32]) -> bool {
        let mut left = list.iter();
        for call in &self.calls {
            let call = call.load(SeqCst);
            let number = (call & 0xFFFF_FFFF) as u32;
            if call >> 32 == u64::from(worker) + 1 && left.next() != Some(&number) {
                return false;
            }
        }
        left.next().is_none()
    }

    /// The numbers with which two workers entered.
    pub fn numbers(&self, alloc: Global) -> Result<Vec<u32>, AllocError> {
        let mut numbers = Vec::new(alloc);
        for call in &self.calls {
            let call = call.load(SeqCst);
            if matches!(call >> 32, 1 | 2) {
                numbers.push((call & 0xFFFF_FFFF) as u32)?;
            }
        }
        Ok(numbers)
    }

    fn wait_for(&self, entered: u64) {
        for _ in 0..TURNS {
            if self.entered.load(SeqCst) >= entered || self.is_stuck() {
                return;
            }
            thread::yield_now();
        }
        self.stuck.store(true, SeqCst);
    }
}

impl Gate for Watch {
    fn enter(&self, worker: u32, number: u32) {
        let place = self.entered.fetch_add(1, SeqCst);
        if let Some(call) = self.calls.get(place as usize) {
            call.store(((u64::from(worker) + 1) << 32) | u64::from(number), SeqCst);
        }
        if place.checked_rem(self.group) == Some(0) {
            self.wait_for(place.saturating_add(self.group));
        }
    }
}

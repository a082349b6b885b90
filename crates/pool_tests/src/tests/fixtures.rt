//! Works and gates that the tests hand in.
ghost use Rattle.std.specs.Prelude.{◌≡◌, ◌*◌, ⊤};

use aml_pool::{Gate, NoMemory, Work};
use std::alloc::{AllocError, Global};
use std::sync::atomic::Ordering::SeqCst;
use std::sync::atomic::{AtomicBool, AtomicU64};

/// How often a held call looks again before it marks itself stuck and goes on: some 20 seconds.
const TURNS: u32 = 500_000_000;

/// The square of the number.
pub struct Square;

impl Work for Square {
    type Done = u64;

    ghost can_work = { λ _ _. ⊤ };

    ghost gives = { λ _ n d. d ≡ n * n };

    fn work(&self, number: u32) -> Result<u64, NoMemory> {
        Ok(u64::from(number) * u64::from(number))
    }
}

/// Number 3 is refused for want of memory.
pub struct ThirdFails;

impl Work for ThirdFails {
    type Done = u64;

    ghost can_work = { λ _ _. ⊤ };

    ghost gives = { λ _ _ _. ⊤ };

    fn work(&self, number: u32) -> Result<u64, NoMemory> {
        if number == 3 { Err(NoMemory) } else { Ok(0) }
    }
}

/// The call that enters first waits until so many others have entered.
#[derive(Drop)]
pub struct Hold {
    others: u64,
    entered: AtomicU64,
    stuck: AtomicBool,
}

impl Hold {
    pub fn of_others(others: u64) -> Hold {
        Hold {
            others,
            entered: AtomicU64::new(0),
            stuck: AtomicBool::new(false),
        }
    }

    pub fn is_stuck(&self) -> bool {
        self.stuck.load(SeqCst)
    }

    fn pass(&self) {
        if self.entered.fetch_add(1, SeqCst) != 0 {
            return;
        }
        for _ in 0..TURNS {
            if self.entered.load(SeqCst) > self.others {
                return;
            }
        }
        self.stuck.store(true, SeqCst);
    }
}

impl Gate for Hold {
    fn enter(&self, _worker: u32, _number: u32) {
        self.pass();
    }
}

impl Work for Hold {
    type Done = u32;

    ghost can_work = { λ _ _. ⊤ };

    ghost gives = { λ _ n d. d ≡ n };

    fn work(&self, number: u32) -> Result<u32, NoMemory> {
        self.pass();
        Ok(number)
    }
}

/// The call that enters first waits until a call of another worker has entered.
#[derive(Drop)]
pub struct Meeting {
    first: AtomicU64,
    met: AtomicBool,
    stuck: AtomicBool,
}

impl Meeting {
    pub fn new() -> Meeting {
        Meeting {
            first: AtomicU64::new(0),
            met: AtomicBool::new(false),
            stuck: AtomicBool::new(false),
        }
    }

    pub fn is_stuck(&self) -> bool {
        self.stuck.load(SeqCst)
    }

    fn wait(&self) {
        for _ in 0..TURNS {
            if self.met.load(SeqCst) {
                return;
            }
        }
        self.stuck.store(true, SeqCst);
    }
}

impl Gate for Meeting {
    fn enter(&self, worker: u32, _number: u32) {
        let me = u64::from(worker) + 1;
        match self.first.compare_exchange(0, me, SeqCst, SeqCst) {
            Ok(_) => self.wait(),
            Err(first) => {
                if first != me {
                    self.met.store(true, SeqCst);
                }
            }
        }
    }
}

/// Keeps its calls, in the order in which they came.
#[derive(Drop)]
pub struct Log {
    calls: Vec<AtomicU64>,
    entered: AtomicU64,
}

impl Log {
    /// With room for so many calls.
    pub fn with_room(alloc: Global, room: u32) -> Result<Log, AllocError> {
        let mut calls = Vec::new(alloc);
        for _ in 0..room {
            calls.push(AtomicU64::new(0))?;
        }
        Ok(Log {
            calls,
            entered: AtomicU64::new(0),
        })
    }

    /// How many calls came, those that had no room too.
    pub fn len(&self) -> u64 {
        self.entered.load(SeqCst)
    }

    /// Whether these are the lists of the workers from this one on.
    pub fn has_lists(&self, first: u32, lists: &[Vec<u32>]) -> bool {
        for (worker, list) in (first..64).zip(lists) {
            if !self.has_list(worker, list.as_slice()) {
                return false;
            }
        }
        true
    }

    /// Whether this worker entered with these numbers, in the order of its calls.
    fn has_list(&self, worker: u32, list: &[u32]) -> bool {
        let mut left = list.iter();
        for call in &self.calls {
            let call = call.load(SeqCst);
            if call >> 32 == u64::from(worker) + 1
                && left.next() != Some(&((call & 0xFFFF_FFFF) as u32))
            {
                return false;
            }
        }
        left.next().is_none()
    }
}

impl Gate for Log {
    fn enter(&self, worker: u32, number: u32) {
        let place = self.entered.fetch_add(1, SeqCst);
        if let Some(call) = self.calls.get(place as usize) {
            call.store(((u64::from(worker) + 1) << 32) | u64::from(number), SeqCst);
        }
    }
}

/// Keeps its calls, and sees to it that two workers at least have some.
#[derive(Drop)]
pub struct Watch {
    pub log: Log,
    pub meeting: Meeting,
}

impl Gate for Watch {
    fn enter(&self, worker: u32, number: u32) {
        self.log.enter(worker, number);
        self.meeting.enter(worker, number);
    }
}

/// A gate that keeps the numbers that entered, and a work that counts its calls and sees whether their numbers did.
#[derive(Drop)]
pub struct Order {
    entered: Vec<AtomicBool>,
    works: AtomicU64,
    unentered: AtomicU64,
}

impl Order {
    /// For the numbers below this one.
    pub fn of_numbers(alloc: Global, count: u32) -> Result<Order, AllocError> {
        let mut entered = Vec::new(alloc);
        for _ in 0..count {
            entered.push(AtomicBool::new(false))?;
        }
        Ok(Order {
            entered,
            works: AtomicU64::new(0),
            unentered: AtomicU64::new(0),
        })
    }

    /// How many pieces of work were done.
    pub fn works(&self) -> u64 {
        self.works.load(SeqCst)
    }

    /// How many of them before their numbers had entered.
    pub fn unentered(&self) -> u64 {
        self.unentered.load(SeqCst)
    }

    fn has_entered(&self, number: u32) -> bool {
        match self.entered.get(number as usize) {
            Some(entered) => entered.load(SeqCst),
            None => false,
        }
    }
}

impl Gate for Order {
    fn enter(&self, _worker: u32, number: u32) {
        if let Some(entered) = self.entered.get(number as usize) {
            entered.store(true, SeqCst);
        }
    }
}

impl Work for Order {
    type Done = u32;

    ghost can_work = { λ _ _. ⊤ };

    ghost gives = { λ _ n d. d ≡ n };

    fn work(&self, number: u32) -> Result<u32, NoMemory> {
        self.works.fetch_add(1, SeqCst);
        if !self.has_entered(number) {
            self.unentered.fetch_add(1, SeqCst);
        }
        Ok(number)
    }
}

/// Whether each number below `count` stands once in the lists, and nothing else stands there.
pub fn each_once(alloc: Global, lists: &[Vec<u32>], count: u32) -> bool {
    match sorted(alloc, lists) {
        Ok(numbers) => numbers.iter().copied().eq(0..count),
        Err(_) => false,
    }
}

/// The numbers of all lists, the smallest first.
fn sorted(alloc: Global, lists: &[Vec<u32>]) -> Result<Vec<u32>, AllocError> {
    let mut numbers = Vec::new(alloc);
    for list in lists {
        numbers.extend_from_slice(list)?;
    }
    numbers.sort_unstable();
    Ok(numbers)
}

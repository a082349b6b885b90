//! Results, filed by number.
ghost use Rattle.std.specs.Prelude.{◌≡◌, [], ◌≤◌, length, vec_capacity};
ghost use Rattle.aml_pool.specs.Counting.{vacant};

use crate::faults::NoMemory;
use std::alloc::Global;

/// Why a value was not filed. It comes back.
#[derive(Drop)]
pub enum ShelfFault<D> {
    /// A value stands at its number already.
    Double(D),
    /// The shelf has no such number.
    Stranger(D),
}

/// A map from the numbers below a count to values, empty at first.
#[derive(Drop)]
pub struct Shelf<D> {
    slots: Vec<Option<D>>,
    room: Vec<D>,
    left: u32,
    ghost counted: { left ≡ vacant slots.items },
    ghost roomy: { (room.items ≡ []) × (length slots.items ≤ vec_capacity room) },
}

impl<D: Drop> Shelf<D> {
    ghost use Rattle.std.specs.Prelude.{◌≡◌, IfOk, IfErr, None, Some, replicate, map};
    ghost use Rattle.aml_pool.specs.Counting.{vacant};
    ghost use Rattle.aml_pool.specs.Seats.{places_of, Files, Refuses};

    /// A shelf for the numbers below `count`. It makes all growths, the room that `finish` fills among them.
    pub fn new(alloc: Global, count: u32) -> Result<Shelf<D>, NoMemory>
        ensures { IfOk result (λ s. places_of s ≡ replicate count None) }
    {
        let room = Vec::with_capacity(alloc, count as usize)?;
        let mut slots = Vec::with_capacity(alloc, count as usize)?;
        for _ in 0..count {
            slots.push(None)?;
        }
        Ok(Shelf {
            slots,
            room,
            left: count,
        })
    }

    /// How many numbers have no value yet.
    pub fn left(&self) -> u32
        ensures { result ≡ vacant (places_of self.now) }
    {
        self.left
    }

    /// Files a value under its number. A refused one comes back, and the shelf stays as it was: `Stranger` where the
    /// number isn't below the count, `Double` where it has a value.
    pub fn put(&mut self, number: u32, value: D) -> Result<(), ShelfFault<D>>
        ensures ok { IfOk result (λ _. Files (places_of self.old) number value (places_of self.new)) }
        ensures err { IfErr result (λ fault. Refuses (places_of self.old) number value fault
            × (self.new ≡ self.old)) }
    {
        let place = number as usize;
        match self.slots.get(place) {
            None => return Err(ShelfFault::Stranger(value)),
            Some(Some(_)) => return Err(ShelfFault::Double(value)),
            Some(None) => {}
        }
        self.slots[place] = Some(value);
        self.left -= 1;
        Ok(())
    }

    /// The values in number order. No number may be left.
    pub fn finish(self) -> Vec<D>
        requires { vacant (places_of self) ≡ 0 }
        ensures { map Some result.items ≡ places_of self }
    {
        let Shelf {
            mut slots,
            mut room,
            left: _,
        } = self;
        while let Some(slot) = slots.pop() {
            let Some(value) = slot else { unreachable!() };
            let Ok(()) = room.push(value) else {
                unreachable!()
            };
        }
        room.reverse();
        room
    }
}

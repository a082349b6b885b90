//! Workers that draw numbers from one counter, each number once, and file their results by number.
//!
//! [`harvest`] is the whole: so many workers, each on a thread of its own, draw the numbers below a count until none
//! is left, and the results come back in number order, whatever the schedule. It is made of a [`Board`] whose [`Seat`]s
//! draw, a [`crew`] of workers who share the seats among them, and a [`Shelf`] on which the results are filed.
#![tactic(auto)]

mod board;
mod faults;
mod gate;
mod results;
mod shelf;
mod work;
mod workers;

pub use board::{Board, Drawn, Seat};
pub use faults::{NoMemory, PoolFault};
pub use gate::{FreeGate, Gate};
pub use results::{Results, harvest, harvest_alone};
pub use shelf::{Shelf, ShelfFault};
pub use work::Work;
pub use workers::{Share, crew};

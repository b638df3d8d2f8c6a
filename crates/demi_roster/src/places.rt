//! What all workers of a session need memory for, made before any of them has begun.
ghost use Rattle.std.specs.Prelude.{◌≡◌, ◌≤◌, IfOk};
ghost use Rattle.demi_roster.specs.Places.{HasPlaces};

use crate::bench::{Bench, benches_for};
use crate::hand::Hand;
use arrayvec::ArrayVec;
use demi_core::NoMemory;
use demi_pdpix::Caller;
use demi_store::StoreLaw;
use demi_worker::Ended;
use std::alloc::Global;

/// What the workers of a session need memory for: a bench for each, and room for all of them, and for what comes back of each. No later
/// call for them takes memory.
pub struct Places<'h> {
    pub benches: Vec<Bench<'h>>,
    pub crew: Vec<Hand<'h>>,
    pub callers: Vec<Caller<StoreLaw>>,
    pub ended: Vec<ArrayVec<Ended, 64>>,
}

impl<'h> Places<'h> {
    /// The places of so many workers, with room for so many links. `NoMemory` only where memory was refused.
    pub fn make(alloc: Global, workers: u32, links: u16) -> Result<Places<'h>, NoMemory>
        requires few { (1 ≤ links) × (links ≤ 16) }
        ensures { IfOk result (λ p. HasPlaces links workers p) }
    {
        let crew = Vec::with_capacity(alloc, workers as usize)?;
        let callers = match Vec::with_capacity(alloc, workers as usize) {
            Ok(callers) => callers,
            Err(_) => {
                crew.destroy_empty();
                return Err(NoMemory);
            }
        };
        let ended = match Vec::with_capacity(alloc, workers as usize) {
            Ok(ended) => ended,
            Err(_) => {
                crew.destroy_empty();
                callers.destroy_empty();
                return Err(NoMemory);
            }
        };
        match benches_for(alloc, workers, links) {
            Ok(benches) => Ok(Places {
                benches,
                crew,
                callers,
                ended,
            }),
            Err(NoMemory) => {
                crew.destroy_empty();
                callers.destroy_empty();
                ended.destroy_empty();
                Err(NoMemory)
            }
        }
    }
}

//! The engine of memory queues.
ghost use Rattle.std.specs.Prelude.{◌≡◌, ◌⊎◌, [], IfErr, IfOk};
ghost use Rattle.demi_device.specs.Serving.{HasStop};
ghost use Rattle.demi_memq.specs.Said.{is_stop};

use crate::chains::Chains;
use crate::heard::{History, Outcomes, finished, heard, no_history, no_outcomes};
use crate::queues::{MOST_ITEMS, MOST_QUEUES, Queues};
use crate::{MemLaw, MemOp};
use demi_core::NoMemory;
use demi_device::{Done, Engine};
use demi_heap::{Heap, HeapPass};
use demi_port_core::Place;
use std::alloc::Global;
use std::marker::Model;
use std::sync::Wait;

/// Serves memory queues. It keeps the arrays that wait, and ends the halves of those that nobody gets, by its pass of their heap.
/// Serving takes no memory.
pub struct MemEngine<'h> {
    queues: Queues<'h>,
    history: History,
    outcomes: Outcomes,
}

impl<'h> Model for MemEngine<'h> {
    ghost use Rattle.demi_memq.specs.Engine.{MemValue};
    ghost use Rattle.demi_memq.specs.Serving.{IsKept, IsSound};

    ghost Value = { MemValue };

    ghost view = { λ e. record { pass = e.queues.pass; room = e.queues.room; served = e.history.value; finished = e.outcomes.value; waits = e.queues.waiting.items } };

    ghost invariant = { λ e. IsKept e.history.value e.outcomes.value e.queues × IsSound e.queues };
}

impl<'h> MemEngine<'h> {
    /// An engine for a port with at most `c` tokens, with a pass of the heap of its arrays. The pass comes back where memory was
    /// refused, and for no other cause.
    pub fn make(
        alloc: Global,
        heap: &'h Heap,
        pass: HeapPass,
        c: u32,
    ) -> Result<MemEngine<'h>, HeapPass>
        requires { pass.heap ≡ heap.now }
        ensures made { IfOk result (λ e. e ≡ record { pass = pass; room = c; served = []; finished = []; waits = [] }) }
        ensures back { IfErr result (λ p. p ≡ pass) }
    {
        let Ok(shut) = Vec::from_elem(alloc, false, MOST_QUEUES as usize) else {
            return Err(pass);
        };
        let Ok(waiting) = Chains::make(alloc, MOST_QUEUES, MOST_ITEMS) else {
            return Err(pass);
        };
        let Ok(pending) = Chains::make(alloc, MOST_QUEUES, c) else {
            waiting.end();
            return Err(pass);
        };
        Ok(MemEngine {
            queues: Queues {
                heap,
                pass,
                room: c,
                made: 0,
                shut,
                stop: None,
                waiting,
                pending,
            },
            history: no_history(),
            outcomes: no_outcomes(),
        })
    }

    /// The pass, after a stop was served, or where nothing was served. No array waits then.
    pub fn parts(self) -> HeapPass
        requires { HasStop is_stop self.served ⊎ (self.served ≡ []) }
        ensures pass { result ≡ self.entry.pass }
        ensures none_wait { self.entry.waits ≡ [] }
    {
        let MemEngine {
            queues,
            history: _,
            outcomes: _,
        } = self;
        let Queues {
            heap: _,
            pass,
            room: _,
            made: _,
            shut: _,
            stop: _,
            waiting,
            pending,
        } = queues;
        waiting.end();
        pending.end();
        pass
    }
}

impl<'h> Engine for MemEngine<'h> {
    type L = MemLaw;

    ghost use Rattle.demi_memq.specs.Engine.{GoesTo, goes_self, goes_on};

    ghost base = { λ e. e.pass.heap };

    ghost room = { λ e. e.room };

    ghost served = { λ e. e.served };

    ghost finished = { λ e. e.finished };

    ghost goes = { GoesTo };

    ghost use Rattle.std.specs.Prelude.{true};

    ghost tends = { λ a there b. (there ≡ true) × (b ≡ a) };

    fn serve(&mut self, place: Place, op: MemOp, done: &mut Done<MemLaw>) {
        let history = heard(&self.history, &op);
        self.queues
            .serve(place, op, &self.history, &self.outcomes, done);
        self.outcomes = finished(&self.outcomes, done);
        self.history = history;
    }

    fn stopped(&self) -> Option<Place> {
        self.queues.stop
    }

    fn tend<R: Wait>(&mut self, _rt: &R) -> Result<(), NoMemory> {
        Ok(())
    }

    ghost goes_self = { goes_self };

    ghost goes_on = { goes_on };
}

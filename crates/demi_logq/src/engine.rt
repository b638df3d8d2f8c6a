//! The engine of a log's queue.
ghost use Rattle.std.specs.Prelude.{◌≡◌, [], IfErr, IfOk, IsOk};
ghost use Rattle.demi_logq.specs.Engine.{basis_of};
ghost use Rattle.demi_logq.specs.Logged.{Holds, IsSound};

use crate::marks::{Past, base_of, finished, heard, no_past, stands_of};
use crate::queue::Queue;
use crate::{Log, LogLaw, LogOp};
use demi_core::{Disk, NoMemory};
use demi_device::{Done, Engine, Mark};
use demi_heap::{Heap, HeapPass};
use demi_port_core::Place;
use std::alloc::Global;
use std::marker::Model;
use std::sync::Wait;

/// Serves the queue of a log: it answers each operation in its own call. It reads an entry straight into slots of the heap, and ends
/// the halves of a push before its outcome is added. Serving takes no memory.
pub struct LogEngine<'h, D: Disk> {
    queue: Queue<'h, D>,
    past: Mark<Past>,
}

impl<'h, D: Disk> Model for LogEngine<'h, D> {
    ghost use Rattle.demi_logq.specs.Engine.{EngineValue, IsServed, stands_now};
    ghost use Rattle.demi_logq.specs.Queues.{Shows};

    ghost Value = { EngineValue D };

    ghost view = { λ e. record { log = e.queue.log; pass = e.queue.pass; base = e.past.value.base; served = e.past.value.served; finished = e.past.value.finished } };

    ghost invariant = { λ e. IsServed e.past.value.served e.past.value.finished × Shows (D.bytes e.queue.log.disk) e.queue.log e.queue.heap.now e.queue.pass e.past.value.base (stands_now e.past.value) e.queue.cursor e.queue.fault e.queue.stop };
}

impl<'h, D: Disk> LogEngine<'h, D> {
    /// An engine over a log in which nothing is staged and of which no commit and no cut has failed, with a pass of the heap of its
    /// arrays. Its cursor is at the first entry. Log and pass come back where memory was refused, and for no other cause;
    /// today it takes no memory, so that it is not refused.
    ///
    /// What it stands on is of this log: the payloads of its entries, where the disk tells its bytes, and else some of their lengths.
    pub fn make(
        alloc: Global,
        log: Log<D>,
        heap: &'h Heap,
        pass: HeapPass,
    ) -> Result<LogEngine<'h, D>, (Log<D>, HeapPass)>
        requires sound { IsSound log }
        requires staged { log.staged ≡ [] }
        requires heap { pass.heap ≡ heap.now }
        ensures made { IfOk result (λ e. e ≡ record { log = log; pass = pass; base = basis_of D.bytes log heap.now; served = []; finished = [] }) }
        ensures payloads { IfOk result (λ e. Holds (D.bytes log.disk) log.ends e.base.payloads) }
        ensures back { IfErr result (λ r. (r.0 ≡ log) × (r.1 ≡ pass)) }
        ensures sure { IsOk result }
    {
        let _ = alloc;
        let _entries = log.count();
        let past = no_past(&log, heap);
        Ok(LogEngine {
            queue: Queue {
                log,
                heap,
                pass,
                cursor: 0,
                fault: None,
                stop: None,
            },
            past,
        })
    }

    /// The log and the pass.
    pub fn parts(self) -> (Log<D>, HeapPass)
        ensures log { result.0 ≡ self.entry.log }
        ensures pass { result.1 ≡ self.entry.pass }
        ensures heap { result.1.heap ≡ self.entry.base.heap }
    {
        let LogEngine { queue, past: _ } = self;
        let Queue {
            log,
            heap: _,
            pass,
            cursor: _,
            fault: _,
            stop: _,
        } = queue;
        (log, pass)
    }
}

impl<'h, D: Disk> Engine for LogEngine<'h, D> {
    type L = LogLaw;

    ghost use Rattle.std.specs.Prelude.{true, ◌^◌};
    ghost use Rattle.demi_logq.specs.Engine.{GoesTo, goes_self, goes_on};

    ghost base = { λ e. e.base };

    ghost room = { λ _. 2 ^ 32 };

    ghost served = { λ e. e.served };

    ghost finished = { λ e. e.finished };

    ghost goes = { GoesTo D.bytes D.held D.faults D.appends D.cuts D.looks };

    ghost tends = { λ a there b. (there ≡ true) × (b ≡ a) };

    fn serve(&mut self, place: Place, op: LogOp, done: &mut Done<LogLaw>) {
        let base = base_of(&self.past);
        let stands = stands_of(&self.past);
        let past = heard(&self.past, &op);
        let out = self.queue.answer(place, op, &base, &stands);
        done.add(place, out);
        self.past = finished(&past, done);
    }

    fn stopped(&self) -> Option<Place> {
        self.queue.stop
    }

    fn tend<R: Wait>(&mut self, _rt: &R) -> Result<(), NoMemory> {
        Ok(())
    }

    ghost goes_self = { goes_self D.bytes D.held D.faults D.appends D.cuts D.looks };

    ghost goes_on = { goes_on D.bytes D.held D.faults D.appends D.cuts D.looks };
}

//! How memory queues serve an operation.
ghost use Rattle.std.specs.Prelude.{◌≡◌, ◌+◌, ◌<◌, length, None, Some};
ghost use Rattle.demi_sga.specs.Arrays.{AreOf};
ghost use Rattle.demi_memq.specs.declared.op.MemOp.TheVariants.{Queue as queue, Push as push, Pop as pop, Close as close, Stop as stop};
ghost use Rattle.demi_memq.specs.Said.{IsProper, array_said, op_said};
ghost use Rattle.demi_memq.specs.Segments.{op_segments};
ghost use Rattle.demi_memq.specs.Serving.{IsReady, IsServed};

use crate::emptying::{end_pops, release_all, release_op, stop_all};
use crate::heard::{History, Outcomes};
use crate::queues::{MOST_QUEUES, Queues};
use crate::{MemLaw, MemOp, MemOut};
use demi_device::Done;
use demi_port_core::Place;
use demi_sga::{DevSga, release};

impl<'h> Queues<'h> {
    pub(crate) fn queue(
        &mut self,
        place: Place,
        history: &History,
        outcomes: &Outcomes,
        done: &mut Done<MemLaw>,
    )
        requires ready { IsReady history.now.value outcomes.now.value self.old place.0 done.old }
        requires calm { self.old.stop ≡ None }
        ensures { IsServed history.now.value outcomes.now.value queue 0 self.old self.new done.old done.new }
    {
        if self.made < MOST_QUEUES {
            let q = self.made;
            self.made += 1;
            done.add(place, MemOut::Opened(q));
        } else {
            done.add(place, MemOut::TooMany);
        }
    }

    pub(crate) fn push(
        &mut self,
        place: Place,
        q: u32,
        sga: DevSga,
        history: &History,
        outcomes: &Outcomes,
        done: &mut Done<MemLaw>,
    )
        requires ready { IsReady history.now.value outcomes.now.value self.old place.0 done.old }
        requires proper { AreOf self.old.pass.heap sga }
        requires calm { self.old.stop ≡ None }
        ensures { IsServed history.now.value outcomes.now.value (push q (array_said sga)) (length sga) self.old self.new done.old done.new }
    {
        let refusal = if q >= self.made {
            MemOut::BadQueue
        } else if self.shut[q as usize] {
            MemOut::Closed
        } else if let Some(first) = self.pending.pop(q) {
            done.add(Place(first), MemOut::Item(sga));
            return done.add(place, MemOut::Pushed);
        } else if self.waiting.has_room() {
            self.waiting.push(q, sga);
            return done.add(place, MemOut::Pushed);
        } else {
            MemOut::QueueFull
        };
        release(self.heap, &mut self.pass, sga);
        done.add(place, refusal);
    }

    pub(crate) fn pop(
        &mut self,
        place: Place,
        q: u32,
        history: &History,
        outcomes: &Outcomes,
        done: &mut Done<MemLaw>,
    )
        requires ready { IsReady history.now.value outcomes.now.value self.old place.0 done.old }
        requires few { length history.now.value < length outcomes.now.value + self.old.room }
        requires calm { self.old.stop ≡ None }
        ensures { IsServed history.now.value outcomes.now.value (pop q) 0 self.old self.new done.old done.new }
    {
        if q >= self.made {
            done.add(place, MemOut::BadQueue);
        } else if let Some(sga) = self.waiting.pop(q) {
            done.add(place, MemOut::Item(sga));
        } else if self.shut[q as usize] {
            done.add(place, MemOut::Closed);
        } else {
            self.pending.push(q, place.0);
        }
    }

    pub(crate) fn close(
        &mut self,
        place: Place,
        q: u32,
        history: &History,
        outcomes: &Outcomes,
        done: &mut Done<MemLaw>,
    )
        requires ready { IsReady history.now.value outcomes.now.value self.old place.0 done.old }
        requires calm { self.old.stop ≡ None }
        ensures { IsServed history.now.value outcomes.now.value (close q) 0 self.old self.new done.old done.new }
    {
        if q >= self.made {
            done.add(place, MemOut::BadQueue);
        } else if self.shut[q as usize] {
            done.add(place, MemOut::Closed);
        } else {
            self.shut[q as usize] = true;
            end_pops(&mut self.pending, q, None, history, outcomes, done);
            done.add(place, MemOut::Shut);
        }
    }

    pub(crate) fn halt(
        &mut self,
        place: Place,
        history: &History,
        outcomes: &Outcomes,
        done: &mut Done<MemLaw>,
    )
        requires ready { IsReady history.now.value outcomes.now.value self.old place.0 done.old }
        requires calm { self.old.stop ≡ None }
        ensures { IsServed history.now.value outcomes.now.value stop 0 self.old self.new done.old done.new }
    {
        self.stop = Some(place);
        stop_all(&mut self.pending, place, history, outcomes, done);
        release_all(self.heap, &mut self.pass, &mut self.waiting);
        done.add(place, MemOut::Halted);
    }

    pub(crate) fn refuse(
        &mut self,
        at: Place,
        place: Place,
        op: MemOp,
        history: &History,
        outcomes: &Outcomes,
        done: &mut Done<MemLaw>,
    )
        requires ready { IsReady history.now.value outcomes.now.value self.old place.0 done.old }
        requires proper { IsProper self.old.pass.heap op }
        requires ended { self.old.stop ≡ Some at }
        ensures { IsServed history.now.value outcomes.now.value (op_said op) (op_segments op) self.old self.new done.old done.new }
    {
        release_op(self.heap, &mut self.pass, op);
        done.add(place, MemOut::Stopped(at));
    }

    /// The operation of the next place.
    pub(crate) fn serve(
        &mut self,
        place: Place,
        op: MemOp,
        history: &History,
        outcomes: &Outcomes,
        done: &mut Done<MemLaw>,
    )
        requires ready { IsReady history.now.value outcomes.now.value self.old place.0 done.old }
        requires proper { IsProper self.old.pass.heap op }
        requires few { length history.now.value < length outcomes.now.value + self.old.room }
        ensures { IsServed history.now.value outcomes.now.value (op_said op) (op_segments op) self.old self.new done.old done.new }
    {
        if let Some(at) = self.stop {
            return self.refuse(at, place, op, history, outcomes, done);
        }
        match op {
            MemOp::Queue => self.queue(place, history, outcomes, done),
            MemOp::Push { q, sga } => self.push(place, q, sga, history, outcomes, done),
            MemOp::Pop { q } => self.pop(place, q, history, outcomes, done),
            MemOp::Close { q } => self.close(place, q, history, outcomes, done),
            MemOp::Stop => self.halt(place, history, outcomes, done),
        }
    }
}

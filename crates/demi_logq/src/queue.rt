//! A log with a cursor, and how it answers an operation.
ghost use Rattle.std.specs.Prelude.{◌≡◌, None, Some};
ghost use Rattle.demi_sga.specs.Arrays.{AreOf, returned_by};
ghost use Rattle.demi_logq.specs.declared.op.LogOp.TheVariants.{Push as push, Pop as pop, Seek as seek, Truncate as truncate, Stop as stop};
ghost use Rattle.demi_logq.specs.Queues.{Answered, Moves, Shows, op_segments};
ghost use Rattle.demi_logq.specs.Answers.{IsProper};

use crate::appending::append_array;
use crate::item::{Taken, take_item};
use crate::marks::State;
use crate::sizes::MAX_PAYLOAD_BYTES;
use crate::{Log, LogBase, LogOp, LogOut, LogRefusal};
use demi_core::Disk;
use demi_device::Mark;
use demi_heap::{Heap, HeapPass};
use demi_port_core::Place;
use demi_sga::{DevSga, release};

/// A log, the pass of the heap of its arrays, the cursor, and the places of the first fault and of the first stop.
pub(crate) struct Queue<'h, D: Disk> {
    pub(crate) log: Log<D>,
    pub(crate) heap: &'h Heap,
    pub(crate) pass: HeapPass,
    pub(crate) cursor: u64,
    pub(crate) fault: Option<Place>,
    pub(crate) stop: Option<Place>,
}

// The halves of an operation that is refused end.
fn release_op(heap: &Heap, pass: &mut HeapPass, op: LogOp, base: &Mark<LogBase>)
    requires heap { (pass.old.heap ≡ heap.now) × (base.now.value.heap ≡ heap.now) }
    requires proper { IsProper base.now.value op }
    ensures { pass.new ≡ returned_by pass.old (op_segments op) }
{
    let _ = base;
    match op {
        LogOp::Push { sga } => release(heap, pass, sga),
        LogOp::Pop => {}
        LogOp::Seek { index: _ } => {}
        LogOp::Truncate { keep: _ } => {}
        LogOp::Stop => {}
    }
}

impl<'h, D: Disk> Queue<'h, D> {
    fn push(
        &mut self,
        place: Place,
        sga: DevSga,
        base: &Mark<LogBase>,
        stands: &Mark<State>,
    ) -> LogOut
        requires shows { Shows (D.bytes self.old.log.disk) self.old.log self.old.heap.now self.old.pass base.now.value stands.now.value self.old.cursor self.old.fault self.old.stop }
        requires calm { (self.old.stop ≡ None) × (self.old.fault ≡ None) }
        requires proper { AreOf self.old.heap.now sga }
        ensures answered { Answered base.now.value.told base.now.value.heap base.now.value.limit place.0 (push sga) stands.now.value (λ s. Shows (D.bytes self.new.log.disk) self.new.log self.new.heap.now self.new.pass base.now.value s self.new.cursor self.new.fault self.new.stop) result }
        ensures moves { Moves D.bytes D.held D.faults D.appends D.cuts D.looks stands.now.value self.old.log self.new.log self.old.pass self.new.pass (push sga) result }
    {
        let size = sga.len() as usize;
        if size == 0 || size > MAX_PAYLOAD_BYTES {
            release(self.heap, &mut self.pass, sga);
            return LogOut::BadSize;
        }
        let appended = append_array(&mut self.log, &sga);
        release(self.heap, &mut self.pass, sga);
        match appended {
            Ok(index) => LogOut::Appended(index),
            Err(LogRefusal::Full) => LogOut::LogFull,
            Err(LogRefusal::Failed) => {
                self.fault = Some(place);
                LogOut::Fault
            }
            Err(LogRefusal::Broken) => unreachable!(),
            Err(LogRefusal::NoMemory) => unreachable!(),
            Err(LogRefusal::BadLog(_)) => unreachable!(),
        }
    }

    fn pop(&mut self, place: Place, base: &Mark<LogBase>, stands: &Mark<State>) -> LogOut
        requires shows { Shows (D.bytes self.old.log.disk) self.old.log self.old.heap.now self.old.pass base.now.value stands.now.value self.old.cursor self.old.fault self.old.stop }
        requires calm { (self.old.stop ≡ None) × (self.old.fault ≡ None) }
        ensures answered { Answered base.now.value.told base.now.value.heap base.now.value.limit place.0 pop stands.now.value (λ s. Shows (D.bytes self.new.log.disk) self.new.log self.new.heap.now self.new.pass base.now.value s self.new.cursor self.new.fault self.new.stop) result }
        ensures moves { Moves D.bytes D.held D.faults D.appends D.cuts D.looks stands.now.value self.old.log self.new.log self.old.pass self.new.pass pop result }
    {
        if self.cursor == self.log.count() {
            return LogOut::AtEnd;
        }
        let taken = take_item(&mut self.log, self.heap, &mut self.pass, self.cursor);
        match taken {
            Taken::Item(sga) => {
                self.cursor += 1;
                LogOut::Item(sga)
            }
            Taken::NoSlot => LogOut::NoSlot,
            Taken::Fault => {
                self.fault = Some(place);
                LogOut::Fault
            }
        }
    }

    fn seek(
        &mut self,
        place: Place,
        index: u64,
        base: &Mark<LogBase>,
        stands: &Mark<State>,
    ) -> LogOut
        requires shows { Shows (D.bytes self.old.log.disk) self.old.log self.old.heap.now self.old.pass base.now.value stands.now.value self.old.cursor self.old.fault self.old.stop }
        requires calm { (self.old.stop ≡ None) × (self.old.fault ≡ None) }
        ensures answered { Answered base.now.value.told base.now.value.heap base.now.value.limit place.0 (seek index) stands.now.value (λ s. Shows (D.bytes self.new.log.disk) self.new.log self.new.heap.now self.new.pass base.now.value s self.new.cursor self.new.fault self.new.stop) result }
        ensures moves { Moves D.bytes D.held D.faults D.appends D.cuts D.looks stands.now.value self.old.log self.new.log self.old.pass self.new.pass (seek index) result }
    {
        if index > self.log.count() {
            return LogOut::BadIndex;
        }
        self.cursor = index;
        LogOut::Sought
    }

    fn truncate(
        &mut self,
        place: Place,
        keep: u64,
        base: &Mark<LogBase>,
        stands: &Mark<State>,
    ) -> LogOut
        requires shows { Shows (D.bytes self.old.log.disk) self.old.log self.old.heap.now self.old.pass base.now.value stands.now.value self.old.cursor self.old.fault self.old.stop }
        requires calm { (self.old.stop ≡ None) × (self.old.fault ≡ None) }
        ensures answered { Answered base.now.value.told base.now.value.heap base.now.value.limit place.0 (truncate keep) stands.now.value (λ s. Shows (D.bytes self.new.log.disk) self.new.log self.new.heap.now self.new.pass base.now.value s self.new.cursor self.new.fault self.new.stop) result }
        ensures moves { Moves D.bytes D.held D.faults D.appends D.cuts D.looks stands.now.value self.old.log self.new.log self.old.pass self.new.pass (truncate keep) result }
    {
        if keep > self.log.count() {
            return LogOut::BadIndex;
        }
        match self.log.keep(keep) {
            Ok(()) => {
                self.cursor = self.cursor.min(keep);
                LogOut::Cut
            }
            Err(LogRefusal::Failed) => {
                self.fault = Some(place);
                LogOut::Fault
            }
            Err(LogRefusal::Broken) => unreachable!(),
            Err(LogRefusal::NoMemory) => unreachable!(),
            Err(LogRefusal::Full) => unreachable!(),
            Err(LogRefusal::BadLog(_)) => unreachable!(),
        }
    }

    fn halt(&mut self, place: Place, base: &Mark<LogBase>, stands: &Mark<State>) -> LogOut
        requires shows { Shows (D.bytes self.old.log.disk) self.old.log self.old.heap.now self.old.pass base.now.value stands.now.value self.old.cursor self.old.fault self.old.stop }
        requires calm { self.old.stop ≡ None }
        ensures answered { Answered base.now.value.told base.now.value.heap base.now.value.limit place.0 stop stands.now.value (λ s. Shows (D.bytes self.new.log.disk) self.new.log self.new.heap.now self.new.pass base.now.value s self.new.cursor self.new.fault self.new.stop) result }
        ensures moves { Moves D.bytes D.held D.faults D.appends D.cuts D.looks stands.now.value self.old.log self.new.log self.old.pass self.new.pass stop result }
    {
        self.stop = Some(place);
        LogOut::Halted
    }

    fn stopped(
        &mut self,
        at: Place,
        place: Place,
        op: LogOp,
        base: &Mark<LogBase>,
        stands: &Mark<State>,
    ) -> LogOut
        requires shows { Shows (D.bytes self.old.log.disk) self.old.log self.old.heap.now self.old.pass base.now.value stands.now.value self.old.cursor self.old.fault self.old.stop }
        requires at { self.old.stop ≡ Some at }
        requires proper { IsProper base.now.value op }
        ensures answered { Answered base.now.value.told base.now.value.heap base.now.value.limit place.0 op stands.now.value (λ s. Shows (D.bytes self.new.log.disk) self.new.log self.new.heap.now self.new.pass base.now.value s self.new.cursor self.new.fault self.new.stop) result }
        ensures moves { Moves D.bytes D.held D.faults D.appends D.cuts D.looks stands.now.value self.old.log self.new.log self.old.pass self.new.pass op result }
    {
        release_op(self.heap, &mut self.pass, op, base);
        LogOut::Stopped(at)
    }

    fn broken(
        &mut self,
        at: Place,
        place: Place,
        op: LogOp,
        base: &Mark<LogBase>,
        stands: &Mark<State>,
    ) -> LogOut
        requires shows { Shows (D.bytes self.old.log.disk) self.old.log self.old.heap.now self.old.pass base.now.value stands.now.value self.old.cursor self.old.fault self.old.stop }
        requires at { (self.old.stop ≡ None) × (self.old.fault ≡ Some at) }
        requires proper { IsProper base.now.value op }
        ensures answered { Answered base.now.value.told base.now.value.heap base.now.value.limit place.0 op stands.now.value (λ s. Shows (D.bytes self.new.log.disk) self.new.log self.new.heap.now self.new.pass base.now.value s self.new.cursor self.new.fault self.new.stop) result }
        ensures moves { Moves D.bytes D.held D.faults D.appends D.cuts D.looks stands.now.value self.old.log self.new.log self.old.pass self.new.pass op result }
    {
        match op {
            LogOp::Push { sga } => {
                release(self.heap, &mut self.pass, sga);
                LogOut::Broken(at)
            }
            LogOp::Pop => LogOut::Broken(at),
            LogOp::Seek { index: _ } => LogOut::Broken(at),
            LogOp::Truncate { keep: _ } => LogOut::Broken(at),
            LogOp::Stop => self.halt(place, base, stands),
        }
    }

    /// The operation of a place.
    pub(crate) fn answer(
        &mut self,
        place: Place,
        op: LogOp,
        base: &Mark<LogBase>,
        stands: &Mark<State>,
    ) -> LogOut
        requires shows { Shows (D.bytes self.old.log.disk) self.old.log self.old.heap.now self.old.pass base.now.value stands.now.value self.old.cursor self.old.fault self.old.stop }
        requires proper { IsProper base.now.value op }
        ensures answered { Answered base.now.value.told base.now.value.heap base.now.value.limit place.0 op stands.now.value (λ s. Shows (D.bytes self.new.log.disk) self.new.log self.new.heap.now self.new.pass base.now.value s self.new.cursor self.new.fault self.new.stop) result }
        ensures moves { Moves D.bytes D.held D.faults D.appends D.cuts D.looks stands.now.value self.old.log self.new.log self.old.pass self.new.pass op result }
    {
        if let Some(at) = self.stop {
            return self.stopped(at, place, op, base, stands);
        }
        if let Some(at) = self.fault {
            return self.broken(at, place, op, base, stands);
        }
        match op {
            LogOp::Push { sga } => self.push(place, sga, base, stands),
            LogOp::Pop => self.pop(place, base, stands),
            LogOp::Seek { index } => self.seek(place, index, base, stands),
            LogOp::Truncate { keep } => self.truncate(place, keep, base, stands),
            LogOp::Stop => self.halt(place, base, stands),
        }
    }
}

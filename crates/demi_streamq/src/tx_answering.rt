//! What one operation of a sending port is answered.
ghost use Rattle.std.specs.Prelude.{◌≡◌, ◌+◌, ◌≤◌, ◌++◌, [], ◌∷◌, length};
ghost use Rattle.std.specs.Io.KnownBytes.{append_known};
ghost use Rattle.demi_core.specs.Outside.{Rose};
ghost use Rattle.demi_sga.specs.Arrays.{returned_by};
ghost use Rattle.demi_streamq.specs.Sending.{IsProper, array_bytes};
ghost use Rattle.demi_streamq.specs.declared.tx_op.TxOp.TheVariants.{Push as push, Close as close, Stop as stop};
ghost use Rattle.demi_streamq.specs.TxGoing.{TxDid};
ghost use Rattle.demi_streamq.specs.TxKept.{bytes_of, IsFault, IsRefusal, segments_of, TxServes, written_of};
ghost use Rattle.demi_streamq.specs.TxState.{IsKept};

use crate::tx_heard::{TxHistory, TxOutcomes};
use crate::tx_writing::write_array;
use crate::{TxOp, TxOut};
use demi_core::Sink;
use demi_heap::{Heap, HeapPass};
use demi_port_core::Place;
use demi_sga::{DevSga, release};

// Whether a close was accepted, which push's write failed, and where the first stop stands.
#[derive(Drop)]
pub(crate) struct TxState {
    pub(crate) closed: bool,
    pub(crate) broken: Option<Place>,
    pub(crate) stop: Option<Place>,
}

impl TxState {
    pub(crate) fn answer<S: Sink>(
        &mut self,
        heap: &Heap,
        pass: &mut HeapPass,
        sink: &mut S,
        place: Place,
        op: TxOp,
        history: &TxHistory,
        outcomes: &TxOutcomes,
    ) -> TxOut
        requires kept { IsKept history.now.value outcomes.now.value self.old }
        requires next { place.0 ≡ length history.now.value }
        requires proper { IsProper heap.now op }
        requires heap { pass.old.heap ≡ heap.now }
        ensures kept { IsKept (history.now.value ++ op ∷ []) (outcomes.now.value ++ (place.0, result) ∷ []) self.new }
        ensures admitted { TxServes history.now.value outcomes.now.value op place.0 result }
        ensures written { S.written sink.new ≡ append_known (S.written sink.old) (written_of (bytes_of op) result) }
        ensures later { S.faults sink.old ≤ S.faults sink.new }
        ensures rose { IsFault result → Rose (S.faults sink.old) (S.faults sink.new) }
        ensures did { TxDid S.written S.faults sink.old (bytes_of op) result sink.new }
        ensures pass { pass.new ≡ returned_by pass.old (segments_of op) }
    {
        match op {
            TxOp::Push { sga } => {
                let out = self.push(sink, place, &sga, history, outcomes);
                release(heap, pass, sga);
                out
            }
            TxOp::Close => self.close(history, outcomes),
            TxOp::Stop => self.halt(place, history, outcomes),
        }
    }

    fn push<S: Sink>(
        &mut self,
        sink: &mut S,
        place: Place,
        sga: &DevSga,
        history: &TxHistory,
        outcomes: &TxOutcomes,
    ) -> TxOut
        requires kept { IsKept history.now.value outcomes.now.value self.old }
        requires next { place.0 ≡ length history.now.value }
        ensures kept { IsKept (history.now.value ++ push sga.now ∷ []) (outcomes.now.value ++ (length history.now.value, result) ∷ []) self.new }
        ensures admitted { TxServes history.now.value outcomes.now.value (push sga.now) (length history.now.value) result }
        ensures written { S.written sink.new ≡ append_known (S.written sink.old) (written_of (array_bytes sga.now) result) }
        ensures later { S.faults sink.old ≤ S.faults sink.new }
        ensures rose { IsFault result → Rose (S.faults sink.old) (S.faults sink.new) }
        ensures did { TxDid S.written S.faults sink.old (array_bytes sga.now) result sink.new }
    {
        if let Some(at) = self.stop {
            return TxOut::Stopped(at);
        }
        if let Some(at) = self.broken {
            return TxOut::Broken(at);
        }
        if self.closed {
            return TxOut::Closed;
        }
        match write_array(sink, sga) {
            Ok(()) => TxOut::Pushed,
            Err(count) => {
                self.broken = Some(place);
                TxOut::Fault(count)
            }
        }
    }

    fn close(&mut self, history: &TxHistory, outcomes: &TxOutcomes) -> TxOut
        requires kept { IsKept history.now.value outcomes.now.value self.old }
        ensures kept { IsKept (history.now.value ++ close ∷ []) (outcomes.now.value ++ (length history.now.value, result) ∷ []) self.new }
        ensures admitted { TxServes history.now.value outcomes.now.value close (length history.now.value) result }
        ensures refusal { IsRefusal result }
    {
        if let Some(at) = self.stop {
            return TxOut::Stopped(at);
        }
        if let Some(at) = self.broken {
            return TxOut::Broken(at);
        }
        if self.closed {
            return TxOut::Closed;
        }
        self.closed = true;
        TxOut::Shut
    }

    fn halt(&mut self, place: Place, history: &TxHistory, outcomes: &TxOutcomes) -> TxOut
        requires kept { IsKept history.now.value outcomes.now.value self.old }
        requires next { place.0 ≡ length history.now.value }
        ensures kept { IsKept (history.now.value ++ stop ∷ []) (outcomes.now.value ++ (length history.now.value, result) ∷ []) self.new }
        ensures admitted { TxServes history.now.value outcomes.now.value stop (length history.now.value) result }
        ensures refusal { IsRefusal result }
    {
        if let Some(at) = self.stop {
            return TxOut::Stopped(at);
        }
        self.stop = Some(place);
        TxOut::Halted
    }
}

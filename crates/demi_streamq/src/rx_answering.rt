//! What one operation of a receiving port is answered.
ghost use Rattle.std.specs.Prelude.{◌≡◌, ◌+◌, ◌≤◌, ◌++◌, [], ◌∷◌, length, true};
ghost use Rattle.std.specs.Io.KnownBytes.{prepend_known};
ghost use Rattle.demi_core.specs.Outside.{Rose};
ghost use Rattle.demi_streamq.specs.Receiving.{IsFit, IsFrom};
ghost use Rattle.demi_streamq.specs.RxGoing.{RxDid};
ghost use Rattle.demi_streamq.specs.RxKept.{bytes_of, ended_after, IsEnd, IsFault, NoneLeft, pieces_of, RxServes};
ghost use Rattle.demi_streamq.specs.RxState.{IsKept};

use crate::rx_heard::{RxHistory, RxOutcomes};
use crate::rx_reading::read_piece;
use crate::{RxOp, RxOut};
use demi_core::Source;
use demi_heap::{Heap, HeapPass};
use demi_port_core::Place;

// How many bytes were read, whether a read gave none, which pop's read failed, and where the first stop stands.
#[derive(Drop)]
pub(crate) struct RxState {
    pub(crate) taken: u64,
    pub(crate) at_end: bool,
    pub(crate) broken: Option<Place>,
    pub(crate) stop: Option<Place>,
}

impl RxState {
    pub(crate) fn answer<S: Source>(
        &mut self,
        heap: &Heap,
        pass: &mut HeapPass,
        source: &mut S,
        place: Place,
        op: RxOp,
        history: &RxHistory,
        outcomes: &RxOutcomes,
    ) -> RxOut
        requires kept { IsKept history.now.value outcomes.now.value self.old }
        requires next { place.0 ≡ length history.now.value }
        requires fit { IsFit op }
        requires heap { pass.old.heap ≡ heap.now }
        requires within { self.old.taken ≤ S.taken source.old }
        requires none_left { self.old.at_end ≡ true → NoneLeft (S.left source.old) }
        ensures kept { IsKept (history.now.value ++ op ∷ []) (outcomes.now.value ++ (place.0, result) ∷ []) self.new }
        ensures admitted { RxServes history.now.value outcomes.now.value op place.0 result }
        ensures from { IsFrom heap.now result }
        ensures pass { pass.new ≡ record pass.old { claimed = pass.new.claimed; ended = pass.new.ended; clock = pass.new.clock; missed = pass.new.missed } }
        ensures numbers { pass.new.claimed + pass.old.ended ≡ pass.old.claimed + pass.new.ended + pieces_of result }
        ensures taken { S.taken source.new ≡ S.taken source.old + length (bytes_of result) }
        ensures left { S.left source.old ≡ prepend_known (bytes_of result) (S.left source.new) }
        ensures later { S.faults source.old ≤ S.faults source.new }
        ensures rose { IsFault result → Rose (S.faults source.old) (S.faults source.new) }
        ensures end { IsEnd result → NoneLeft (S.left source.new) }
        ensures did { RxDid S.faults S.reads self.old.at_end source.old pass.old result source.new pass.new }
        ensures ended { self.new.at_end ≡ ended_after self.old.at_end result }
        ensures within { self.new.taken ≤ S.taken source.new }
        ensures none_left { self.new.at_end ≡ true → NoneLeft (S.left source.new) }
    {
        if let Some(at) = self.stop {
            return RxOut::Stopped(at);
        }
        match op {
            RxOp::Stop => {
                self.stop = Some(place);
                RxOut::Halted
            }
            RxOp::Pop { max } => {
                if self.at_end {
                    return RxOut::End;
                }
                if let Some(at) = self.broken {
                    return RxOut::Broken(at);
                }
                match read_piece(heap, pass, source, max, self.taken) {
                    RxOut::End => {
                        self.at_end = true;
                        RxOut::End
                    }
                    RxOut::Fault(k) => {
                        self.broken = Some(place);
                        RxOut::Fault(k)
                    }
                    RxOut::Piece(piece) => {
                        self.taken += piece.len() as u64;
                        RxOut::Piece(piece)
                    }
                    RxOut::NoSlot => RxOut::NoSlot,
                    RxOut::Broken(_) => unreachable!(),
                    RxOut::Stopped(_) => unreachable!(),
                    RxOut::Halted => unreachable!(),
                }
            }
        }
    }
}

//! The engine of a receiving port.
ghost use Rattle.std.specs.Prelude.{◌≡◌, ◌⊎◌, []};
ghost use Rattle.demi_device.specs.Serving.{HasStop};
ghost use Rattle.demi_streamq.specs.Receiving.{is_stop};

use crate::rx_answering::RxState;
use crate::rx_heard::{RxHistory, RxOutcomes, finished, heard, no_history, no_outcomes};
use crate::{RxLaw, RxOp};
use demi_core::{NoMemory, Source};
use demi_device::{Done, Engine};
use demi_heap::{Heap, HeapPass};
use demi_port_core::Place;
use std::marker::Model;
use std::sync::Wait;

/// Serves a receiving port: each pop reads the source once, into a page that it claims with its pass of the heap. The number of a
/// fault counts the bytes that the source gave since the engine was made. Serving takes no memory, and waits as the source does.
pub struct RxEngine<'h, S: Source> {
    heap: &'h Heap,
    pass: HeapPass,
    source: S,
    state: RxState,
    history: RxHistory,
    outcomes: RxOutcomes,
}

impl<'h, S: Source> Model for RxEngine<'h, S> {
    ghost use Rattle.std.specs.Prelude.{◌≡◌, ◌≤◌, true, false};
    ghost use Rattle.demi_streamq.specs.RxGoing.{RxValue};
    ghost use Rattle.demi_streamq.specs.RxKept.{NoneLeft, ended_in};
    ghost use Rattle.demi_streamq.specs.RxState.{IsKept};

    ghost Value = { RxValue S };

    ghost view = { λ e. record { source = e.source; pass = e.pass; served = e.history.value; finished = e.outcomes.value } };

    ghost invariant = { λ e. IsKept e.history.value e.outcomes.value e.state × (e.pass.heap ≡ e.heap.now) × (e.state.taken ≤ S.taken e.source) × (e.state.at_end ≡ true → NoneLeft (S.left e.source)) × (e.state.at_end ≡ ended_in false e.outcomes.value) };
}

impl<'h, S: Source> RxEngine<'h, S> {
    /// An engine that reads the source into pages of the heap, which it claims with this pass.
    pub fn make(source: S, heap: &'h Heap, pass: HeapPass) -> RxEngine<'h, S>
        requires { pass.heap ≡ heap.now }
        ensures { result ≡ record { source = source; pass = pass; served = []; finished = [] } }
    {
        RxEngine {
            heap,
            pass,
            source,
            state: RxState {
                taken: 0,
                at_end: false,
                broken: None,
                stop: None,
            },
            history: no_history(),
            outcomes: no_outcomes(),
        }
    }

    /// The source and the pass, after a stop was served, or where nothing was served.
    pub fn parts(self) -> (S, HeapPass)
        requires { HasStop is_stop self.served ⊎ (self.served ≡ []) }
        ensures { (result.0 ≡ self.entry.source) × (result.1 ≡ self.entry.pass) }
    {
        let RxEngine {
            heap: _,
            pass,
            source,
            state: _,
            history: _,
            outcomes: _,
        } = self;
        (source, pass)
    }
}

impl<'h, S: Source> Engine for RxEngine<'h, S> {
    type L = RxLaw;

    ghost use Rattle.std.specs.Prelude.{true};
    ghost use Rattle.demi_streamq.specs.RxGoing.{RxGoes, rx_goes_self, rx_goes_on};

    ghost base = { λ e. e.pass.heap };

    ghost room = { λ _. 1024 };

    ghost served = { λ e. e.served };

    ghost finished = { λ e. e.finished };

    ghost goes = { RxGoes S.taken S.left S.faults S.reads };

    ghost tends = { λ a there b. (there ≡ true) × (b ≡ a) };

    fn serve(&mut self, place: Place, op: RxOp, done: &mut Done<RxLaw>) {
        let history = heard(&self.history, &op);
        let out = self.state.answer(
            self.heap,
            &mut self.pass,
            &mut self.source,
            place,
            op,
            &self.history,
            &self.outcomes,
        );
        done.add(place, out);
        self.outcomes = finished(&self.outcomes, done);
        self.history = history;
    }

    fn stopped(&self) -> Option<Place> {
        self.state.stop
    }

    fn tend<R: Wait>(&mut self, _rt: &R) -> Result<(), NoMemory> {
        Ok(())
    }

    ghost goes_self = { rx_goes_self S.taken S.left S.faults S.reads };

    ghost goes_on = { rx_goes_on S.taken S.left S.faults S.reads };
}

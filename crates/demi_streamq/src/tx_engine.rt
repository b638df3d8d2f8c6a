//! The engine of a sending port.
ghost use Rattle.std.specs.Prelude.{◌≡◌, ◌⊎◌, []};
ghost use Rattle.demi_device.specs.Serving.{HasStop};
ghost use Rattle.demi_streamq.specs.Sending.{is_stop};

use crate::tx_answering::TxState;
use crate::tx_heard::{TxHistory, TxOutcomes, finished, heard, no_history, no_outcomes};
use crate::{TxLaw, TxOp};
use demi_core::{NoMemory, Sink};
use demi_device::{Done, Engine};
use demi_heap::{Heap, HeapPass};
use demi_port_core::Place;
use std::marker::Model;
use std::sync::Wait;

/// Serves a sending port: each push writes its array to the sink from the device halves themselves, and then ends the halves by the
/// engine's pass of their heap. Serving takes no memory, and waits as the sink does.
pub struct TxEngine<'h, S: Sink> {
    heap: &'h Heap,
    pass: HeapPass,
    sink: S,
    state: TxState,
    history: TxHistory,
    outcomes: TxOutcomes,
}

impl<'h, S: Sink> Model for TxEngine<'h, S> {
    ghost use Rattle.std.specs.Prelude.{◌≡◌};
    ghost use Rattle.demi_streamq.specs.TxGoing.{TxValue};
    ghost use Rattle.demi_streamq.specs.TxState.{IsKept};

    ghost Value = { TxValue S };

    ghost view = { λ e. record { sink = e.sink; pass = e.pass; served = e.history.value; finished = e.outcomes.value } };

    ghost invariant = { λ e. IsKept e.history.value e.outcomes.value e.state × (e.pass.heap ≡ e.heap.now) };
}

impl<'h, S: Sink> TxEngine<'h, S> {
    /// An engine that writes to the sink arrays of the heap, whose halves it ends with this pass.
    pub fn make(sink: S, heap: &'h Heap, pass: HeapPass) -> TxEngine<'h, S>
        requires { pass.heap ≡ heap.now }
        ensures { result ≡ record { sink = sink; pass = pass; served = []; finished = [] } }
    {
        TxEngine {
            heap,
            pass,
            sink,
            state: TxState {
                closed: false,
                broken: None,
                stop: None,
            },
            history: no_history(),
            outcomes: no_outcomes(),
        }
    }

    /// The sink and the pass, after a stop was served, or where nothing was served.
    pub fn parts(self) -> (S, HeapPass)
        requires { HasStop is_stop self.served ⊎ (self.served ≡ []) }
        ensures { (result.0 ≡ self.entry.sink) × (result.1 ≡ self.entry.pass) }
    {
        let TxEngine {
            heap: _,
            pass,
            sink,
            state: _,
            history: _,
            outcomes: _,
        } = self;
        (sink, pass)
    }
}

impl<'h, S: Sink> Engine for TxEngine<'h, S> {
    type L = TxLaw;

    ghost use Rattle.std.specs.Prelude.{true};
    ghost use Rattle.demi_streamq.specs.TxGoing.{TxGoes, tx_goes_self, tx_goes_on};

    ghost base = { λ e. e.pass.heap };

    ghost room = { λ _. 1024 };

    ghost served = { λ e. e.served };

    ghost finished = { λ e. e.finished };

    ghost goes = { TxGoes S.written S.faults };

    ghost tends = { λ a there b. (there ≡ true) × (b ≡ a) };

    fn serve(&mut self, place: Place, op: TxOp, done: &mut Done<TxLaw>) {
        let history = heard(&self.history, &op);
        let out = self.state.answer(
            self.heap,
            &mut self.pass,
            &mut self.sink,
            place,
            op,
            &self.history,
            &self.outcomes,
        );
        done.add(place, out);
        self.outcomes = finished(&self.outcomes, done);
        self.history = history;
    }

    fn stopped(&self) -> Option<Place> {
        self.state.stop
    }

    fn tend<R: Wait>(&mut self, _rt: &R) -> Result<(), NoMemory> {
        Ok(())
    }

    ghost goes_self = { tx_goes_self S.written S.faults };

    ghost goes_on = { tx_goes_on S.written S.faults };
}

//! The work of each kind of device: to serve until it was stopped.
use crate::station::Station;
use demi_core::{Disk, Sink, Source};
use demi_memq::MemEngine;
use demi_store::StoreEngine;
use demi_streamq::{RxEngine, TxEngine};
use demi_work::Job;
use std::sync::Wait;

impl<'p, 'h> Job for Station<'p, MemEngine<'h>> {
    ghost use Rattle.demi_server.specs.Runs.{MemRan};

    ghost ready = { λ _. Unit {0} };

    ghost done = { MemRan };

    fn work<R: Wait>(&mut self, rt: &R) {
        self.serve(rt);
    }
}

impl<'p, D: Disk> Job for Station<'p, StoreEngine<D>> {
    ghost use Rattle.demi_server.specs.Runs.{StoreRan};

    ghost ready = { λ _. Unit {0} };

    ghost done = { StoreRan D.bytes D.held D.faults D.appends D.looks };

    fn work<R: Wait>(&mut self, rt: &R) {
        self.serve(rt);
    }
}

impl<'p, 'h, I: Source> Job for Station<'p, RxEngine<'h, I>> {
    ghost use Rattle.demi_server.specs.Runs.{RxRan};

    ghost ready = { λ _. Unit {0} };

    ghost done = { RxRan I.taken I.left I.faults I.reads };

    fn work<R: Wait>(&mut self, rt: &R) {
        self.serve(rt);
    }
}

impl<'p, 'h, O: Sink> Job for Station<'p, TxEngine<'h, O>> {
    ghost use Rattle.demi_server.specs.Runs.{TxRan};

    ghost ready = { λ _. Unit {0} };

    ghost done = { TxRan O.written O.faults };

    fn work<R: Wait>(&mut self, rt: &R) {
        self.serve(rt);
    }
}

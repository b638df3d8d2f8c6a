//! The engine of the store.
ghost use Rattle.std.specs.Prelude.{◌≡◌, ◌≢◌, ◌≤◌, ℕ, [], None, length, map, IfErr, IfOk, IfSome, Ok, Err, MatchResult};
ghost use Rattle.demi_core.specs.Outside.{Rose};
ghost use Rattle.demi_spec.specs.Record.{payload, records as records_of_text};
ghost use Rattle.demi_logq.specs.Logged.{Holds, IsSound};
ghost use Rattle.demi_store.specs.Engine.{basis_of};
ghost use Rattle.demi_store.specs.Openings.{BeginsEntry};

use crate::desk::Desk;
use crate::marks::{Past, base_of, finished, heard, no_past, stands_of};
use crate::{StoreAsk, StoreCore, StoreLaw};
use demi_core::{Disk, NoMemory};
use demi_device::{Done, Engine, Mark};
use demi_logq::{Log, LogRefusal};
use demi_port_core::Place;
use std::alloc::Global;
use std::marker::Model;
use std::sync::Wait;

/// Serves the store: it answers each operation in its own call, and what came with it goes back.
pub struct StoreEngine<D: Disk> {
    desk: Desk<D>,
    past: Mark<Past>,
}

impl<D: Disk> Model for StoreEngine<D> {
    ghost use Rattle.demi_store.specs.Engine.{EngineValue, IsServed, stands_now};
    ghost use Rattle.demi_store.specs.Serving.{Shows};

    ghost Value = { EngineValue D };

    ghost view = { λ e. record { core = e.desk.core; base = e.past.value.base; served = e.past.value.served; finished = e.past.value.finished } };

    ghost invariant = { λ e. IsServed e.past.value.served e.past.value.finished × Shows (D.bytes e.desk.core.log.disk) e.desk.core e.past.value.base (stands_now e.past.value) e.desk.stop };
}

impl<D: Disk> StoreEngine<D> {
    /// An engine over a log of which no commit and no cut has failed and in which nothing is staged: it reads the entries as records, of
    /// which there may be `limit`, at most as many as the log allows. What it stands on is these records, the limit, and whether the
    /// disk tells its bytes.
    ///
    /// `BadLog` exactly where an entry is no record, with the place of the first such entry's first byte, where the disk tells its
    /// bytes; where it does not, that is the place of an entry. `Failed` only where the disk's count of faults rose; `NoMemory`. The
    /// log comes back as it was.
    pub fn make(
        alloc: Global,
        log: Log<D>,
        limit: u32,
    ) -> Result<StoreEngine<D>, (Log<D>, LogRefusal)>
        requires limit { limit ≤ log.limit }
        requires staged { log.staged ≡ [] }
        requires sound { IsSound log }
        ensures made { IfOk result (λ e. (e.base ≡ basis_of D.bytes e.core) × (e.served ≡ []) × (e.finished ≡ [])) }
        ensures read { IfOk result (λ e. IfSome (D.bytes log.disk) (λ b. records_of_text b ≡ Ok e.core.records)) }
        ensures holds { IfOk result (λ e. Holds (D.bytes e.core.log.disk) e.core.log.ends (map payload e.core.records)) }
        ensures count { IfOk result (λ e. length e.core.records ≡ length log.ends) }
        ensures fresh { IfOk result (λ e. (e.core.begun ≡ None) × (e.core.fault ≡ None) × (e.core.limit ≡ limit)) }
        ensures log { IfOk result (λ e. e.core.log ≡ record log { disk = e.core.log.disk }) }
        ensures bad { IfErr result (λ e. (at : ℕ) → e.1 ≡ LogRefusal.BadLog at → IfSome (D.bytes log.disk) (λ b. records_of_text b ≡ Err at)) }
        ensures place { IfErr result (λ e. (at : ℕ) → e.1 ≡ LogRefusal.BadLog at → BeginsEntry log.ends at) }
        ensures other { IfErr result (λ e. (e.1 ≢ LogRefusal.Full) × (e.1 ≢ LogRefusal.Broken)) }
        ensures failed { IfErr result (λ e. e.1 ≡ LogRefusal.Failed → Rose (D.faults log.disk) (D.faults e.0.disk)) }
        ensures back { IfErr result (λ e. e.0 ≡ record log { disk = e.0.disk }) }
        ensures bytes { MatchResult result (λ e. D.bytes e.core.log.disk ≡ D.bytes log.disk) (λ e. D.bytes e.0.disk ≡ D.bytes log.disk) }
        ensures held { MatchResult result (λ e. D.held e.core.log.disk ≡ D.held log.disk) (λ e. D.held e.0.disk ≡ D.held log.disk) }
        ensures calls { MatchResult result (λ e. D.looks log.disk e.core.log.disk) (λ e. D.looks log.disk e.0.disk) }
        ensures later { MatchResult result (λ e. D.faults log.disk ≤ D.faults e.core.log.disk) (λ e. D.faults log.disk ≤ D.faults e.0.disk) }
    {
        match StoreCore::make(alloc, log, limit) {
            Ok(core) => {
                let past = no_past(&core);
                Ok(StoreEngine {
                    desk: Desk { core, stop: None },
                    past,
                })
            }
            Err(refused) => Err(refused),
        }
    }

    /// The log.
    pub fn parts(self) -> Log<D>
        ensures { result ≡ self.core.log }
    {
        let StoreEngine { desk, past: _ } = self;
        let Desk { core, stop: _ } = desk;
        core.into_log()
    }
}

impl<D: Disk> Engine for StoreEngine<D> {
    type L = StoreLaw;

    ghost use Rattle.std.specs.Prelude.{true, ◌^◌};
    ghost use Rattle.demi_store.specs.Engine.{GoesTo, goes_self, goes_on};

    ghost base = { λ e. e.base };

    ghost room = { λ _. 2 ^ 32 };

    ghost served = { λ e. e.served };

    ghost finished = { λ e. e.finished };

    ghost goes = { GoesTo D.bytes D.held D.faults D.appends D.looks };

    ghost tends = { λ a there b. (there ≡ true) × (b ≡ a) };

    fn serve(&mut self, place: Place, op: StoreAsk, done: &mut Done<StoreLaw>) {
        let base = base_of(&self.past);
        let stands = stands_of(&self.past);
        let past = heard(&self.past, &op);
        let StoreAsk { sequence: _, op } = op;
        let out = self.desk.answer(place, op, &base, &stands);
        done.add(place, out);
        self.past = finished(&past, done);
    }

    fn stopped(&self) -> Option<Place> {
        self.desk.stop
    }

    fn tend<R: Wait>(&mut self, _rt: &R) -> Result<(), NoMemory> {
        Ok(())
    }

    ghost goes_self = { goes_self D.bytes D.held D.faults D.appends D.looks };

    ghost goes_on = { goes_on D.bytes D.held D.faults D.appends D.looks };
}

//! All devices of a session beside its workers.
ghost use Rattle.std.specs.Prelude.{◌≡◌, ◌<◌, All, length};
ghost use Rattle.demi_server.specs.Gathering.{AreSpent};
ghost use Rattle.demi_server.specs.Runs.{MemRan, RxRan, StoreRan, TxRan};
ghost use Rattle.demi_work.specs.Working.{BothDone, EachBecame, IsCrewDone};

use crate::devices::Devices;
use demi_core::{Disk, Sink, Source};
use demi_work::{Crew, work_all};
use std::sync::Wait;
use std::thread::Threads;

/// All devices serve their ports until each was stopped, beside the workers, the first of which does the last of the work. Each device
/// served all that it fetched.
pub(crate) fn run_devices<
    'h,
    R: Threads + Wait + Sync,
    I: Source + Send,
    O: Sink + Send,
    D: Disk + Send,
    W: Crew + Send,
>(rt: &R, devices: Devices<'h, I, O, D>, workers: &mut [W]) -> Devices<'h, I, O, D>
    requires some { 0 < length workers.old }
    requires ready { All W.ready workers.old }
    ensures memory { MemRan devices.entry.memory result.memory }
    ensures store { StoreRan D.bytes D.held D.faults D.appends D.looks devices.entry.store result.store }
    ensures links { EachBecame (BothDone (RxRan I.taken I.left I.faults I.reads) (TxRan O.written O.faults)) devices.entry.links result.links }
    ensures workers { IsCrewDone W.done W.finished workers.old workers.new }
    ensures others { (result.service_pass ≡ devices.entry.service_pass) × (result.journal ≡ devices.entry.journal) }
    ensures spent { AreSpent result }
{
    let Devices {
        mut memory,
        mut store,
        mut links,
        waiting,
    } = devices;
    work_all(rt, &mut memory, &mut store, &mut links, workers);
    Devices {
        memory,
        store,
        links,
        waiting,
    }
}

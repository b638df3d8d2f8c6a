//! A whole with one caller, one link and no log, without threads.
ghost use Rattle.std.specs.Prelude.{◌≡◌, [], length};
ghost use Rattle.demi_pdpix.specs.Alone.{IsAlone};
ghost use Rattle.demi_pdpix.specs.Seen.{AreNewPairs, IsNewPair, as_list};

use super::doubler::UntilZero;
use super::redeeming::{device_on, ended, pops_that_are_stopped};
use super::refusing::what_is_refused;
use crate::{Caller, Demi, DemiPlan, Seats};
use demi_heap::Counts;
use std::alloc::Global;
use std::marker::Brand;
use std::process::Abort;
use std::test::Fail;

// What `make` gives.
type Made = (Demi<UntilZero>, Vec<Caller<UntilZero>>, Seats<UntilZero>);

fn made(rt: &impl Abort, alloc: Global) -> Made
    ensures ports { (length result.0.journal ≡ 0) × (length result.0.rx ≡ 1) }
    ensures memory { (result.0.memory.key.base ≡ result.0.heap) × (result.0.memory.tokens.slots ≡ 4) }
    ensures callers { (result.0.callers ≡ 1) × IsAlone result.0 result.1.items }
    ensures memory_seat { IsNewPair result.0.heap 1 result.0.memory result.2.memory }
    ensures service_seat { IsNewPair result.0.heap 1 result.0.service result.2.service }
    ensures journal_seat { AreNewPairs result.0.heap 1 result.0.journal (as_list result.2.journal) }
    ensures rx_seats { AreNewPairs result.0.heap 1 result.0.rx result.2.rx.items }
    ensures tx_seats { AreNewPairs result.0.heap 1 result.0.tx result.2.tx.items }
{
    let plan = DemiPlan {
        callers: 1,
        tokens: 4,
        links: 1,
        log: false,
        counts: Counts {
            small: 1,
            page: 0,
            large: 0,
        },
    };
    match Demi::<UntilZero>::make::<Brand, Brand>(alloc, plan) {
        Ok(made) => made,
        Err(_) => panic!(rt; "no memory"),
    }
}

// How many slots are free at the end.
fn free_at_end(
    demi: Demi<UntilZero>,
    callers: Vec<Caller<UntilZero>>,
    seats: Seats<UntilZero>,
) -> u32
    requires callers { (demi.callers ≡ 1) × IsAlone demi callers.items }
    requires journal { length demi.journal ≡ 0 }
    requires memory { (seats.memory.0.port ≡ demi.memory) × (seats.memory.0.passes ≡ 1) × (seats.memory.1.heap ≡ demi.heap) }
    requires service_seat { IsNewPair demi.heap 1 demi.service seats.service }
    requires journal_seat { AreNewPairs demi.heap 1 demi.journal (as_list seats.journal) }
    requires rx_seats { AreNewPairs demi.heap 1 demi.rx seats.rx.items }
    requires tx_seats { AreNewPairs demi.heap 1 demi.tx seats.tx.items }
{
    let end = demi.close(callers, seats);
    end.heap.free
}

#[test]
fn what_no_descriptor_names_is_refused(rt: HostRuntime) -> Result<(), Fail> {
    let (demi, mut callers, seats) = made(&rt, rt.alloc());
    what_is_refused(&rt, &demi, &mut callers[0]);
    assert_eq!(rt; free_at_end(demi, callers, seats), 1);
    Ok(())
}

#[test]
fn a_spent_token_ends_a_wait_for_all(rt: HostRuntime) -> Result<(), Fail> {
    let (demi, mut callers, seats) = made(&rt, rt.alloc());
    let Seats {
        memory,
        service,
        journal,
        rx,
        tx,
    } = seats;
    let mut device = device_on(&rt, rt.alloc(), &demi, memory);
    pops_that_are_stopped(&rt, rt.alloc(), &demi, &mut callers[0], &mut device);
    let memory = ended(&rt, &demi, device);
    let seats = Seats {
        memory,
        service,
        journal,
        rx,
        tx,
    };
    assert_eq!(rt; free_at_end(demi, callers, seats), 1);
    Ok(())
}

//! The whole of a session: its heap, its ports, its callers and the parts of its devices.
ghost use Rattle.std.specs.Prelude.{◌≡◌, ◌+◌, ◌*◌, ◌≤◌, [], IfErr, IfOk, None, false, length};
ghost use Rattle.demi_pdpix.specs.Seen.{AreNewCallers};
ghost use Rattle.demi_server.specs.Gathering.{AreFor, HasSlots};

use crate::parts::{Parts, TOKENS};
use crate::plan::Plan;
use demi_core::Disk;
use demi_heap::Counts;
use demi_pdpix::{Caller, Demi, DemiPlan};
use demi_port_core::Basis;
use demi_store::{StoreBase, StoreEngine, StoreLaw};
use std::alloc::Global;
use std::marker::Brand;

/// A heap and ports with a caller for each worker, and what the devices are made of.
pub(crate) struct Opened<I, O, D: Disk> {
    pub(crate) demi: Demi<StoreLaw>,
    pub(crate) callers: Vec<Caller<StoreLaw>>,
    pub(crate) parts: Parts<I, O, D>,
}

// By what the whole is made: four small slots, two pages and four large ones for each link, and 64 small ones besides.
fn demi_plan(workers: u32, links: u32) -> DemiPlan
    requires { links ≤ 16 }
    ensures { (result.callers ≡ workers) × (result.tokens ≡ TOKENS) × (result.links ≡ links) × (result.log ≡ false) × (result.counts ≡ record { small = 4 * links + 64; page = 2 * links; large = 4 * links }) }
{
    DemiPlan {
        callers: workers,
        tokens: TOKENS,
        links,
        log: false,
        counts: Counts {
            small: 4 * links + 64,
            page: 2 * links,
            large: 4 * links,
        },
    }
}

// The same at a base that contracts alone see.
fn open_on<N: Basis<StoreBase>, I, O, D: Disk>(
    alloc: Global,
    plan: Plan,
    links: Vec<(I, O)>,
    store: StoreEngine<D>,
) -> Result<Opened<I, O, D>, (Vec<(I, O)>, StoreEngine<D>)>
    requires base { N.base ≡ store.base }
    requires plan { (1 ≤ plan.workers) × (plan.workers ≤ 4) × (length links.items ≤ 16) }
    requires new { (store.served ≡ []) × (store.finished ≡ []) }
    ensures parts { IfOk result (λ o. (o.parts.links ≡ links) × (o.parts.store ≡ store) × AreFor o.demi o.parts) }
    ensures callers { IfOk result (λ o. (o.demi.callers ≡ plan.workers) × (length o.callers.items ≡ plan.workers) × AreNewCallers o.demi 0 o.callers.items) }
    ensures journal { IfOk result (λ o. (o.demi.journal ≡ []) × (o.parts.seats.journal ≡ None)) }
    ensures heap { IfOk result (λ o. HasSlots (length links.items) plan.workers o.demi) }
    ensures back { IfErr result (λ r. (r.0 ≡ links) × (r.1 ≡ store)) }
{
    let demi_plan = demi_plan(plan.workers, links.len() as u32);
    match Demi::<StoreLaw>::make::<N, Brand>(alloc, demi_plan) {
        Ok((demi, callers, seats)) => Ok(Opened {
            demi,
            callers,
            parts: Parts {
                links,
                store,
                seats,
            },
        }),
        Err(_) => Err((links, store)),
    }
}

/// A heap and ports for so many workers and for these links, with this store as the service. Links and store come back as they were
/// where memory was refused, and for no other cause.
///
/// The heap has four small slots, two pages and four large ones for each link, and 64 small ones besides; each port has 64 tokens.
pub(crate) fn open<I, O, D: Disk>(
    alloc: Global,
    plan: Plan,
    links: Vec<(I, O)>,
    store: StoreEngine<D>,
) -> Result<Opened<I, O, D>, (Vec<(I, O)>, StoreEngine<D>)>
    requires plan { (1 ≤ plan.workers) × (plan.workers ≤ 4) × (length links.items ≤ 16) }
    requires new { (store.served ≡ []) × (store.finished ≡ []) }
    ensures parts { IfOk result (λ o. (o.parts.links ≡ links) × (o.parts.store ≡ store) × AreFor o.demi o.parts) }
    ensures callers { IfOk result (λ o. (o.demi.callers ≡ plan.workers) × (length o.callers.items ≡ plan.workers) × AreNewCallers o.demi 0 o.callers.items) }
    ensures journal { IfOk result (λ o. (o.demi.journal ≡ []) × (o.parts.seats.journal ≡ None)) }
    ensures heap { IfOk result (λ o. HasSlots (length links.items) plan.workers o.demi) }
    ensures back { IfErr result (λ r. (r.0 ≡ links) × (r.1 ≡ store)) }
{
    open_on::<Brand, I, O, D>(alloc, plan, links, store)
}

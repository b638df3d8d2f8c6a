//! What the coroutines of one worker are polled with.
ghost use Rattle.std.specs.Prelude.{◌≡◌, ℕ, ◌≤◌, ◌<◌, [], length};
ghost use Rattle.demi_pdpix.specs.Owing.{Owes};
ghost use Rattle.demi_pdpix.specs.Seen.{IsOf};
ghost use Rattle.demi_link.specs.Sights.{nothing_due, worker_of};
ghost use Rattle.demi_served.specs.Alone.{AsksAll};
ghost use Rattle.demi_context.specs.ContextLedgers.{due_of, no_ledger};
ghost use Rattle.demi_context.specs.ContextSights.{sight_of};

mod calls;
mod ledger;
mod notes;
mod ports;
mod scanning;
mod serving;
mod tries;

use demi_device::Mark;
use demi_pdpix::{Caller, Demi};
use demi_sched::Seen;
use demi_store::StoreLaw;
pub use ledger::Ledger;
use notes::{no_calls, nothing_seen};
pub(crate) use ports::{receiving, sending};
use std::collections::LinkedList;
use std::marker::Model;

/// One worker of a whole whose service is the store: it owns its caller, and borrows the whole.
pub struct Context<'h> {
    demi: &'h Demi<StoreLaw>,
    caller: Caller<StoreLaw>,
    number: u8,
    // How many links there are.
    links: u16,
    // How many sequence numbers were drawn, and so the last of them.
    drawn: u64,
    begun: u64,
    seen: Mark<LinkedList<Seen>>,
    ledger: Mark<Ledger>,
}

impl<'h> Model for Context<'h> {
    ghost use Rattle.demi_context.specs.ContextSights.{ContextValue, IsSound};

    ghost Value = { ContextValue };

    ghost view = { λ c. record { demi = c.demi.now; caller = c.caller; number = c.number; ledger = c.ledger.value; seen = c.seen.value; begun = c.begun } };

    ghost invariant = { λ c. IsSound c.demi.now c.caller c.number c.links c.drawn c.ledger.value };
}

impl<'h> Context<'h> {
    /// A worker with this number and caller, of a whole with so many links. The caller has nothing outstanding, and asked the store
    /// nothing.
    pub fn make(
        demi: &'h Demi<StoreLaw>,
        caller: Caller<StoreLaw>,
        number: u8,
        links: u16,
    ) -> Context<'h>
        requires links { (length demi.now.rx ≡ links) × (length demi.now.tx ≡ links) × (links ≤ 16) }
        requires owes { Owes demi.now number [] caller }
        requires new { caller.service.submitted ≡ [] }
        ensures { result ≡ record { demi = demi.now; caller = caller; number = number; ledger = no_ledger; seen = []; begun = 0 } }
    {
        Context {
            demi,
            caller,
            number,
            links,
            drawn: 0,
            begun: 0,
            seen: nothing_seen(),
            ledger: no_calls(),
        }
    }

    /// The caller. With each number that was drawn for a request that asks the store it asked just that, and nothing else. Where no token
    /// of a link is due, it has nothing outstanding.
    pub fn parts(self) -> Caller<StoreLaw>
        ensures caller { result ≡ self.entry.caller }
        ensures of { IsOf self.entry.demi result }
        ensures asks { (link : ℕ) → AsksAll (worker_of (sight_of self.entry link)) }
        ensures owes { ((link : ℕ) → link < length self.entry.demi.rx → due_of self.entry.ledger link ≡ nothing_due) → Owes self.entry.demi self.entry.number [] result }
    {
        let Context {
            demi: _,
            caller,
            number: _,
            links: _,
            drawn: _,
            begun: _,
            seen: _,
            ledger: _,
        } = self;
        caller
    }
}

//! What a context notes of its calls, for contracts alone.
ghost use Rattle.std.specs.Prelude.{◌≡◌, ◌++◌, [], ◌∷◌};
ghost use Rattle.demi_link.specs.Events.{NoSlotFound, NoTokenFound, NumbersUsedUp};
ghost use Rattle.demi_context.specs.ContextLedgers.{after_ask_of, after_claim, after_draw_of, after_free, after_giving, after_pop, after_push, after_rx_try, after_store_try, after_tx_try, no_ledger, with_event};

use super::ledger::{Entry, Ledger, Trying};
use demi_device::Mark;
use demi_link::Talk;
use demi_port::Redeem;
use demi_port_core::{Bits, Mask, QToken};
use demi_sched::Seen;
use demi_sga::{AppSga, LentSga};
use demi_store::{StoreLaw, StoreOp};
use demi_streamq::{RxLaw, TxLaw};
use std::collections::LinkedList;

pub(crate) fn no_calls() -> Mark<Ledger>
    ensures { result.value ≡ no_ledger }
{
    Mark::from(&(), &())
}

pub(crate) fn nothing_seen() -> Mark<LinkedList<Seen>>
    ensures { result.value ≡ [] }
{
    Mark::from(&(), &())
}

// The port was asked for these indexes.
pub(crate) fn asked_for(port: u16, mask: &Mask) -> Mark<Seen>
    ensures { result.value ≡ record { port = port; mask = mask.now; bits = record { words = [] } } }
{
    Mark::from(&port, mask)
}

// It answered so.
pub(crate) fn answered(scan: &Mark<Seen>, bits: &Bits) -> Mark<Seen>
    ensures { result.value ≡ record scan.now.value { bits = bits.now } }
{
    Mark::from(scan, bits)
}

pub(crate) fn one_seen(seen: &Mark<LinkedList<Seen>>, scan: &Mark<Seen>) -> Mark<LinkedList<Seen>>
    ensures { result.value ≡ seen.now.value ++ scan.now.value ∷ [] }
{
    Mark::from(seen, scan)
}

// The call at hand is for this link.
pub(crate) fn of_link(ledger: &Mark<Ledger>, link: u16) -> Mark<Entry>
    ensures { result.value ≡ record { ledger = ledger.now.value; link = link } }
{
    Mark::from(ledger, &link)
}

// No slot was found.
pub(crate) fn no_slot(ledger: &Mark<Ledger>) -> Mark<Ledger>
    ensures { result.value ≡ with_event ledger.now.value NoSlotFound }
{
    Mark::from(ledger, &())
}

// No token was found.
pub(crate) fn no_token(ledger: &Mark<Ledger>) -> Mark<Ledger>
    ensures { result.value ≡ with_event ledger.now.value NoTokenFound }
{
    Mark::from(ledger, &())
}

// No number is left.
pub(crate) fn used_up(ledger: &Mark<Ledger>) -> Mark<Ledger>
    ensures { result.value ≡ with_event ledger.now.value NumbersUsedUp }
{
    Mark::from(ledger, &())
}

// A half was claimed.
pub(crate) fn claimed(entry: &Mark<Entry>) -> Mark<Ledger>
    ensures { result.value ≡ after_claim entry.now.value }
{
    Mark::from(entry, &())
}

// The halves of an array were given back.
pub(crate) fn freed(entry: &Mark<Entry>, sga: &AppSga) -> Mark<Ledger>
    ensures { result.value ≡ after_free entry.now.value sga.now }
{
    Mark::from(entry, sga)
}

// Those of a lent array.
pub(crate) fn freed_lent(entry: &Mark<Entry>, half: &LentSga) -> Mark<Ledger>
    ensures { result.value ≡ after_free entry.now.value half.now.segments }
{
    Mark::from(entry, half)
}

// A number was drawn.
pub(crate) fn drew(entry: &Mark<Entry>, talk: &Mark<Talk>) -> Mark<Ledger>
    ensures { result.value ≡ after_draw_of entry.now.value talk.now.value }
{
    Mark::from(entry, talk)
}

// The halves of an operation go along with it.
pub(crate) fn giving(entry: &Mark<Entry>, op: &StoreOp) -> Mark<Ledger>
    ensures { result.value ≡ after_giving entry.now.value op.now }
{
    Mark::from(entry, op)
}

// It was taken with this token.
pub(crate) fn asked(entry: &Mark<Entry>, token: QToken) -> Mark<Ledger>
    ensures { result.value ≡ after_ask_of entry.now.value token }
{
    Mark::from(entry, &token)
}

pub(crate) fn popped(entry: &Mark<Entry>, token: QToken) -> Mark<Ledger>
    ensures { result.value ≡ after_pop entry.now.value token }
{
    Mark::from(entry, &token)
}

pub(crate) fn pushed(entry: &Mark<Entry>, token: QToken) -> Mark<Ledger>
    ensures { result.value ≡ after_push entry.now.value token }
{
    Mark::from(entry, &token)
}

// A token of the link at hand is tried.
pub(crate) fn trying(entry: &Mark<Entry>, token: QToken) -> Mark<Trying>
    ensures { result.value ≡ record { entry = entry.now.value; token = token } }
{
    Mark::from(entry, &token)
}

// The try came to this.
pub(crate) fn store_tried(trying: &Mark<Trying>, came: &Redeem<StoreLaw>) -> Mark<Ledger>
    ensures { result.value ≡ after_store_try trying.now.value.entry trying.now.value.token came.now }
{
    Mark::from(trying, came)
}

pub(crate) fn rx_tried(trying: &Mark<Trying>, came: &Redeem<RxLaw>) -> Mark<Ledger>
    ensures { result.value ≡ after_rx_try trying.now.value.entry trying.now.value.token came.now }
{
    Mark::from(trying, came)
}

pub(crate) fn tx_tried(trying: &Mark<Trying>, came: &Redeem<TxLaw>) -> Mark<Ledger>
    ensures { result.value ≡ after_tx_try trying.now.value.entry trying.now.value.token came.now }
{
    Mark::from(trying, came)
}

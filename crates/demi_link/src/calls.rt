//! The calls that a link makes.
ghost use Rattle.std.specs.Prelude.{◌≡◌, ◌≢◌, ℕ, ◌+◌, ◌-◌, ◌<◌, ◌≤◌, ◌++◌, List, [], ◌∷◌, IfErr, IfOk, IfNone, IfSome, None, Some, length, replicate};
ghost use Rattle.demi_heap.specs.Seen.{half_with, new_half};
ghost use Rattle.demi_port_core.specs.declared.place.QToken.{QToken};
ghost use Rattle.demi_sga.specs.Arrays.{AreOf, SameSlots, class_for, zeroed};
ghost use Rattle.demi_served.specs.Keeps.{WorkerKeeps, numbered, of_link};
ghost use Rattle.demi_served.specs.Asking.{asks_for, ask_of};
ghost use Rattle.demi_store.specs.Laws.{Admits, IsProperOp};
ghost use Rattle.demi_streamq.specs.Receiving.{RxAdmits, IsFrom};
ghost use Rattle.demi_streamq.specs.RxKept.{pieces_of};
ghost use Rattle.demi_streamq.specs.Sending.{TxAdmits};
ghost use Rattle.demi_streamq.specs.declared.rx_op.RxOp.TheVariants.{Pop as pop_op};
ghost use Rattle.demi_streamq.specs.declared.tx_op.TxOp.TheVariants.{Push as push_op};
ghost use Rattle.demi_link.specs.Events.{Adds, Event, Gave, NoSlotFound, NoTokenFound, NumbersUsedUp, RxCame, TriedBy, TxCame, brought, settled, store_came, tried};
ghost use Rattle.demi_link.specs.Sights.{LeavesBe, Sight, Submits, worker_of};
ghost use Rattle.demi_link.specs.Stores.{halves_in, halves_back};

use crate::talk::Talk;
use demi_buf::Class;
use demi_device::Mark;
use demi_heap::{AppBuf, NoSlot};
use demi_port::Redeem;
use demi_port_core::QToken;
use demi_sched::Scanner;
use demi_sga::{AppSga, DevSga, LentSga};
use demi_store::{StoreLaw, StoreOp};
use demi_streamq::{RxLaw, TxLaw};

/// No token of the port could be had.
#[derive(Clone, Copy, Debug, PartialEq, Eq, Drop)]
pub struct NoToken;

/// The calls of one worker for its links, which are also what scans its ports.
///
/// Each call is for one link and goes by that link's name. Where a call is refused, it hands back what it was given, and what
/// the worker has is as it was.
pub trait Calls: Scanner {
    // What the worker has for a link.
    ghost sight: { Self → ℕ → Sight };

    // What its calls came to, in order.
    ghost events: { Self → List Event };

    /// Claims a buffer of the class, of no bytes.
    fn claim(&mut self, link: u16, class: Class) -> Result<AppBuf, NoSlot>
        ensures ok { IfOk result (λ b. b ≡ new_half (sight self.old link).heap class b.slot) }
        ensures taken { IfOk result (λ _. (sight self.new link ≡ record (sight self.old link) { out = (sight self.old link).out + 1 }) × (events self.new ≡ events self.old)) }
        ensures err { IfErr result (λ _. (sight self.new link ≡ sight self.old link) × Adds (events self.old) (events self.new) NoSlotFound) }
        ensures seen { Self.seen self.new ≡ Self.seen self.old }
        ensures begun { Self.begun self.new ≡ Self.begun self.old }
        ensures goes { Self.goes link self.old self.new };

    /// One segment of `n` bytes, all 0, in a buffer of the least class that holds them.
    fn sgaalloc(&mut self, link: u16, n: u32) -> Result<AppSga, NoSlot>
        requires { (1 ≤ n) × (n ≤ 65536) }
        ensures ok { IfOk result (λ a. (slot : ℕ) × (a ≡ zeroed (sight self.old link).heap (class_for n) slot n ∷ [])) }
        ensures taken { IfOk result (λ _. (sight self.new link ≡ record (sight self.old link) { out = (sight self.old link).out + 1 }) × (events self.new ≡ events self.old)) }
        ensures err { IfErr result (λ _. (sight self.new link ≡ sight self.old link) × Adds (events self.old) (events self.new) NoSlotFound) }
        ensures seen { Self.seen self.new ≡ Self.seen self.old }
        ensures begun { Self.begun self.new ≡ Self.begun self.old }
        ensures goes { Self.goes link self.old self.new };

    /// Frees each segment.
    fn sgafree(&mut self, link: u16, sga: AppSga)
        requires heap { AreOf (sight self.old link).heap sga }
        requires out { length sga ≤ (sight self.old link).out }
        ensures sight { sight self.new link ≡ record (sight self.old link) { out = (sight self.old link).out - length sga } }
        ensures events { events self.new ≡ events self.old }
        ensures seen { Self.seen self.new ≡ Self.seen self.old }
        ensures begun { Self.begun self.new ≡ Self.begun self.old }
        ensures goes { Self.goes link self.old self.new };

    /// Frees the application half of each segment, also while the device has its half.
    fn sgafree_lent(&mut self, link: u16, half: LentSga)
        requires heap { AreOf (sight self.old link).heap half.segments }
        requires out { length half.segments ≤ (sight self.old link).out }
        ensures sight { sight self.new link ≡ record (sight self.old link) { out = (sight self.old link).out - length half.segments } }
        ensures events { events self.new ≡ events self.old }
        ensures seen { Self.seen self.new ≡ Self.seen self.old }
        ensures begun { Self.begun self.new ≡ Self.begun self.old }
        ensures goes { Self.goes link self.old self.new };

    /// Halves of all segments, in order.
    fn lend(&mut self, link: u16, sga: AppSga) -> (LentSga, DevSga)
        requires { AreOf (sight self.old link).heap sga }
        ensures lent { result.0 ≡ record { segments = sga; back = 0 } }
        ensures device { result.1 ≡ sga }
        ensures sight { sight self.new link ≡ sight self.old link }
        ensures events { events self.new ≡ events self.old }
        ensures seen { Self.seen self.new ≡ Self.seen self.old }
        ensures begun { Self.begun self.new ≡ Self.begun self.old }
        ensures goes { Self.goes link self.old self.new };

    /// Takes the segments back with both of their halves, with the bytes that the device half has.
    fn rejoin(&mut self, link: u16, half: LentSga, dev: DevSga) -> AppSga
        requires heap { AreOf (sight self.old link).heap half.segments × AreOf (sight self.old link).heap dev }
        requires slots { SameSlots half.segments dev }
        requires back { half.back ≡ 0 }
        ensures array { result ≡ dev }
        ensures sight { sight self.new link ≡ sight self.old link }
        ensures events { events self.new ≡ events self.old }
        ensures seen { Self.seen self.new ≡ Self.seen self.old }
        ensures begun { Self.begun self.new ≡ Self.begun self.old }
        ensures goes { Self.goes link self.old self.new };

    /// Pops at most 4,096 bytes from the link's receiving queue.
    fn pop(&mut self, link: u16) -> Result<QToken, NoToken>
        ensures port { IfOk result (λ r. r.port < Self.ports self.old) }
        ensures ok { IfOk result (λ r. (place : ℕ) × Submits place (sight self.old link).rx (sight self.new link).rx r.token.0 (pop_op 4096)) }
        ensures only { IfOk result (λ r. (sight self.new link ≡ record (sight self.old link) { rx = (sight self.new link).rx; due = record (sight self.old link).due { rx = (sight self.old link).due.rx + 1 } }) × Adds (events self.old) (events self.new) (Gave r)) }
        ensures err { IfErr result (λ _. (sight self.new link ≡ sight self.old link) × Adds (events self.old) (events self.new) NoTokenFound) }
        ensures seen { Self.seen self.new ≡ Self.seen self.old }
        ensures begun { Self.begun self.new ≡ Self.begun self.old }
        ensures goes { Self.goes link self.old self.new };

    /// What the token's pop came to. The link has a pop whose token is to be redeemed.
    fn try_rx(&mut self, link: u16, token: QToken) -> Redeem<RxLaw>
        requires due { 1 ≤ (sight self.old link).due.rx }
        ensures tried { TriedBy (λ o h t p. RxAdmits h t p o × IsFrom (sight self.old link).heap o) token.token.0 (sight self.old link).rx (sight self.new link).rx result }
        ensures only { sight self.new link ≡ record (sight self.old link) { rx = (sight self.new link).rx; out = (sight self.old link).out + brought pieces_of result; due = record (sight self.old link).due { rx = (sight self.old link).due.rx - settled result } } }
        ensures events { Adds (events self.old) (events self.new) (tried RxCame token result) }
        ensures seen { Self.seen self.new ≡ Self.seen self.old }
        ensures begun { Self.begun self.new ≡ Self.begun self.old }
        ensures goes { Self.goes link self.old self.new };

    /// Draws the worker's next sequence number for the link's request, which is none of the store's, and asks nothing. `None`
    /// exactly where there is none left of 64 bits.
    fn draw(&mut self, link: u16, talk: &Mark<Talk>) -> Option<u64>
        requires own { of_link link (sight self.old link).draws ≡ numbered link 0 talk.now.value.kept.drawn }
        requires plain { ask_of link (length talk.now.value.kept.drawn) talk.now.value.request ≡ None }
        ensures some { IfSome result (λ n. (n ≡ length (sight self.old link).draws + 1) × (n ≤ 18446744073709551615) × (sight self.new link ≡ record (sight self.old link) { draws = (sight self.old link).draws ++ record { link = link; index = length talk.now.value.kept.drawn; request = talk.now.value.request } ∷ [] }) × (events self.new ≡ events self.old)) }
        ensures none { IfNone result ((sight self.new link ≡ sight self.old link) × Adds (events self.old) (events self.new) NumbersUsedUp × (18446744073709551615 ≤ length (sight self.old link).draws)) }
        ensures seen { Self.seen self.new ≡ Self.seen self.old }
        ensures begun { Self.begun self.new ≡ Self.begun self.old }
        ensures goes { Self.goes link self.old self.new };

    /// Asks the store, with the worker's next sequence number, which it says. Where it is refused no number is drawn, and the
    /// operation comes back.
    fn ask(&mut self, link: u16, talk: &Mark<Talk>, op: StoreOp) -> Result<(QToken, u64), StoreOp>
        requires own { of_link link (sight self.old link).draws ≡ numbered link 0 talk.now.value.kept.drawn }
        requires asks { ask_of link (length talk.now.value.kept.drawn) talk.now.value.request ≡ Some (asks_for op) }
        requires proper { IsProperOp op }
        requires out { halves_in op ≤ (sight self.old link).out }
        ensures port { IfOk result (λ r. r.0.port < Self.ports self.old) }
        ensures number { IfOk result (λ r. (r.1 ≡ length (sight self.old link).draws + 1) × (r.1 ≤ 18446744073709551615)) }
        ensures ok { IfOk result (λ r. (place : ℕ) × Submits place (sight self.old link).store (sight self.new link).store r.0.token.0 (record { sequence = r.1; op = op })) }
        ensures only { IfOk result (λ r. (sight self.new link ≡ record (sight self.old link) { store = (sight self.new link).store; draws = (sight self.old link).draws ++ record { link = link; index = length talk.now.value.kept.drawn; request = talk.now.value.request } ∷ []; out = (sight self.old link).out - halves_in op; due = record (sight self.old link).due { store = (sight self.old link).due.store + 1 } }) × Adds (events self.old) (events self.new) (Gave r.0)) }
        ensures err { IfErr result (λ o. (o ≡ op) × (sight self.new link ≡ sight self.old link) × Adds (events self.old) (events self.new) NoTokenFound) }
        ensures seen { Self.seen self.new ≡ Self.seen self.old }
        ensures begun { Self.begun self.new ≡ Self.begun self.old }
        ensures goes { Self.goes link self.old self.new };

    /// What the token's operation of the store came to, likewise.
    fn try_store(&mut self, link: u16, token: QToken) -> Redeem<StoreLaw>
        requires due { 1 ≤ (sight self.old link).due.store }
        ensures tried { TriedBy (λ o h t p. Admits (sight self.old link).base h t p o) token.token.0 (sight self.old link).store (sight self.new link).store result }
        ensures only { sight self.new link ≡ record (sight self.old link) { store = (sight self.new link).store; out = (sight self.old link).out + brought halves_back result; due = record (sight self.old link).due { store = (sight self.old link).due.store - settled result } } }
        ensures events { Adds (events self.old) (events self.new) (tried store_came token result) }
        ensures seen { Self.seen self.new ≡ Self.seen self.old }
        ensures begun { Self.begun self.new ≡ Self.begun self.old }
        ensures goes { Self.goes link self.old self.new };

    /// Lends the array and pushes it on the link's sending queue. Where it is refused, the array comes back with its bytes.
    fn push(&mut self, link: u16, sga: AppSga) -> Result<(QToken, LentSga), AppSga>
        requires { AreOf (sight self.old link).heap sga }
        ensures port { IfOk result (λ r. r.0.port < Self.ports self.old) }
        ensures half { IfOk result (λ r. r.1 ≡ record { segments = sga; back = 0 }) }
        ensures ok { IfOk result (λ r. (place : ℕ) × Submits place (sight self.old link).tx (sight self.new link).tx r.0.token.0 (push_op sga)) }
        ensures only { IfOk result (λ r. (sight self.new link ≡ record (sight self.old link) { tx = (sight self.new link).tx; due = record (sight self.old link).due { tx = (sight self.old link).due.tx + 1 } }) × Adds (events self.old) (events self.new) (Gave r.0)) }
        ensures err { IfErr result (λ a. (a ≡ sga) × (sight self.new link ≡ sight self.old link) × Adds (events self.old) (events self.new) NoTokenFound) }
        ensures seen { Self.seen self.new ≡ Self.seen self.old }
        ensures begun { Self.begun self.new ≡ Self.begun self.old }
        ensures goes { Self.goes link self.old self.new };

    /// What the token's push came to, likewise.
    fn try_tx(&mut self, link: u16, token: QToken) -> Redeem<TxLaw>
        requires due { 1 ≤ (sight self.old link).due.tx }
        ensures tried { TriedBy (λ o h t p. TxAdmits h t p o) token.token.0 (sight self.old link).tx (sight self.new link).tx result }
        ensures only { sight self.new link ≡ record (sight self.old link) { tx = (sight self.new link).tx; due = record (sight self.old link).due { tx = (sight self.old link).due.tx - settled result } } }
        ensures events { Adds (events self.old) (events self.new) (tried TxCame token result) }
        ensures seen { Self.seen self.new ≡ Self.seen self.old }
        ensures begun { Self.begun self.new ≡ Self.begun self.old }
        ensures goes { Self.goes link self.old self.new };

    // What is done by one name leaves be what the links of other names have.
    ghost goes_beside: { (n : ℕ) (a b : Self) → Self.goes n a b → (link : ℕ) → n ≢ link → LeavesBe link (sight a link) (sight b link) };
}

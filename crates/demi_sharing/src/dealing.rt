// How the first worker deals out the numbers of the links, through queue 0 of the memory queues.
ghost use Rattle.std.specs.Prelude.{◌≡◌, ℕ, IfNone, IfSome, List, [], ◌∷◌, length};
ghost use Rattle.demi_context.specs.ContextPorts.{OwesLess, SameButMemory};
ghost use Rattle.demi_context.specs.Halting.{HasLooked};
ghost use Rattle.demi_heap.specs.Seen.{HalfValue, HeapId, half_with};
ghost use Rattle.demi_link.specs.Sights.{side_of};
ghost use Rattle.demi_memq.specs.Said.{array_said};
ghost use Rattle.demi_memq.specs.declared.op.MemOp.TheVariants.{Close, Push, Queue};
ghost use Rattle.demi_memq.specs.declared.out.MemOut.TheVariants.{Opened, Shut};
ghost use Rattle.demi_pdpix.specs.Seen.{IsOf};
ghost use Rattle.demi_pdpix.specs.declared.kind.PortKind.TheVariants.{Memory};
ghost use Rattle.demi_served.specs.Sharing.{number_of};
ghost use Rattle.demi_sga.specs.Arrays.{AreOf};
ghost use Rattle.demi_sharing.specs.Acting.{Acts, Came, Gave, Pushes};
ghost use Rattle.demi_sharing.specs.Dealing.{Deed, DealsOut, IsPushOf, MemSide};

use crate::redeeming::redeem;
use demi_context::hold;
use demi_memq::MemOut;
use demi_pdpix::{Caller, Demi, PushRefused, Qd};
use demi_port_core::QToken;
use demi_sga::AppSga;
use demi_store::StoreLaw;
use std::sync::Wait;

// The queue of the links' numbers.
pub(crate) const NUMBERS: Qd = Qd { port: 0, queue: 0 };

// An array of one segment with these bytes written over its own, of which there are as many.
fn filled(mut sga: AppSga, bytes: &[u8]) -> AppSga
    requires { (a : HalfValue) × (sga ≡ a ∷ []) × (length a.bytes ≡ length bytes.now) }
    ensures { (a : HalfValue) → sga ≡ a ∷ [] → result ≡ half_with a bytes.now ∷ [] }
{
    sga.segment_mut(0).copy_from_slice(bytes);
    sga
}

// An array of two bytes that says the number.
fn spelled(sga: AppSga, number: u16) -> AppSga
    requires { (a : HalfValue) × (sga ≡ a ∷ []) × (length a.bytes ≡ 2) }
    ensures number { number_of result ≡ number }
    ensures heap { (h : HeapId) → AreOf h sga → AreOf h result }
{
    filled(sga, &number.to_be_bytes())
}

// Pushes the array. Where it is refused, it is freed.
fn submit_push(demi: &Demi<StoreLaw>, caller: &mut Caller<StoreLaw>, sga: AppSga) -> Option<QToken>
    requires of { IsOf demi.now caller.old }
    requires array { AreOf demi.now.heap sga }
    ensures of { IsOf demi.now caller.new }
    ensures some { IfSome result (λ t. (t.port ≡ 0) × Gave (Push 0 (array_said sga)) t.token.0 caller.old caller.new) }
    ensures none { IfNone result (HasLooked caller.old caller.new) }
{
    match demi.push(caller, NUMBERS, sga) {
        Ok((token, half)) => {
            demi.sgafree_lent(caller, half);
            Some(token)
        }
        Err(PushRefused::BadQd(sga)) => {
            demi.sgafree(caller, sga);
            None
        }
        Err(PushRefused::TokensFull(sga)) => {
            demi.sgafree(caller, sga);
            None
        }
    }
}

// Pushes the number, where there is a buffer and a token for it.
fn try_push(demi: &Demi<StoreLaw>, caller: &mut Caller<StoreLaw>, number: u16) -> Option<QToken>
    requires { IsOf demi.now caller.old }
    ensures of { IsOf demi.now caller.new }
    ensures some { IfSome result (λ t. (t.port ≡ 0) × ((sga : List HalfValue) × (number_of sga ≡ number) × Gave (Push 0 sga) t.token.0 caller.old caller.new)) }
    ensures none { IfNone result (HasLooked caller.old caller.new) }
{
    match demi.sgaalloc(caller, 2) {
        Ok(sga) => submit_push(demi, caller, spelled(sga, number)),
        Err(_) => None,
    }
}

// Pushes the number, again until that is taken.
fn give_push<R: Wait>(
    rt: &R,
    demi: &Demi<StoreLaw>,
    caller: &mut Caller<StoreLaw>,
    number: u16,
) -> QToken
    requires { IsOf demi.now caller.old }
    ensures of { IsOf demi.now caller.new }
    ensures port { result.port ≡ 0 }
    ensures gave { (sga : List HalfValue) × (number_of sga ≡ number) × Gave (Push 0 sga) result.token.0 caller.old caller.new }
{
    for _ in rt.forever() {
        match try_push(demi, caller, number) {
            Some(token) => return token,
            None => demi.park(rt, caller),
        }
    }
    unreachable!()
}

// Pushes the number, and waits until that is done.
fn push_number<R: Wait>(rt: &R, demi: &Demi<StoreLaw>, caller: &mut Caller<StoreLaw>, number: u16)
    requires { IsOf demi.now caller.old }
    ensures of { IsOf demi.now caller.new }
    ensures pushed { (d : Deed) × IsPushOf number d × Acts (d ∷ []) caller.old caller.new }
{
    let token = give_push(rt, demi, caller, number);
    match redeem(rt, demi, caller, token) {
        MemOut::Pushed => {}
        other => {
            let _never = hold(rt, demi, caller, other);
        }
    }
}

// Pushes the number of each link, in order.
fn push_all<R: Wait>(rt: &R, demi: &Demi<StoreLaw>, caller: &mut Caller<StoreLaw>, links: u16)
    requires { IsOf demi.now caller.old }
    ensures of { IsOf demi.now caller.new }
    ensures pushed { Pushes links caller.old caller.new }
{
    for number in 0..links {
        push_number(rt, demi, caller, number);
    }
}

// Closes the queue, again until that is taken.
fn give_close<R: Wait>(rt: &R, demi: &Demi<StoreLaw>, caller: &mut Caller<StoreLaw>) -> QToken
    requires { IsOf demi.now caller.old }
    ensures of { IsOf demi.now caller.new }
    ensures port { result.port ≡ 0 }
    ensures gave { Gave (Close 0) result.token.0 caller.old caller.new }
{
    for _ in rt.forever() {
        match demi.close_queue(caller, NUMBERS) {
            Ok(token) => return token,
            Err(_) => demi.park(rt, caller),
        }
    }
    unreachable!()
}

// Closes the queue, and waits until that is done.
fn shut<R: Wait>(rt: &R, demi: &Demi<StoreLaw>, caller: &mut Caller<StoreLaw>)
    requires { IsOf demi.now caller.old }
    ensures of { IsOf demi.now caller.new }
    ensures shut { Acts ((Close 0, Shut) ∷ []) caller.old caller.new }
{
    let token = give_close(rt, demi, caller);
    match redeem(rt, demi, caller, token) {
        MemOut::Shut => {}
        other => {
            let _never = hold(rt, demi, caller, other);
        }
    }
}

// Waits until the queue is made that was asked for with this token. Its number is 0.
fn await_queue<R: Wait>(rt: &R, demi: &Demi<StoreLaw>, caller: &mut Caller<StoreLaw>, token: QToken)
    requires of { IsOf demi.now caller.old }
    requires port { token.port ≡ 0 }
    ensures of { IsOf demi.now caller.new }
    ensures opened { Came token.token.0 (Opened 0) caller.old caller.new }
{
    match redeem(rt, demi, caller, token) {
        MemOut::Opened(0) => {}
        other => {
            let _never = hold(rt, demi, caller, other);
        }
    }
}

// Deals out the numbers of so many links: waits for the queue that was asked for with this token, pushes them there, and closes it.
pub(crate) fn deal_out<R: Wait>(
    rt: &R,
    demi: &Demi<StoreLaw>,
    caller: &mut Caller<StoreLaw>,
    token: QToken,
    links: u16,
)
    requires of { IsOf demi.now caller.old }
    requires port { token.port ≡ 0 }
    requires asked { (place : ℕ) × ((side_of caller.old.memory).submitted ≡ (place, (token.token.0, Queue)) ∷ []) }
    ensures of { IsOf demi.now caller.new }
    ensures dealt { (p : MemSide) × (p.submitted ≡ []) × DealsOut links p (side_of caller.new.memory) }
    ensures sides { SameButMemory caller.old caller.new }
    ensures owes { OwesLess Memory 1 caller.old caller.new }
{
    await_queue(rt, demi, caller, token);
    push_all(rt, demi, caller, links);
    shut(rt, demi, caller);
}

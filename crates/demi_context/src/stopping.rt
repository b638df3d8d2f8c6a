//! How a worker's caller stops ports.
ghost use Rattle.std.specs.Prelude.{◌≡◌, ◌≤◌, ℕ, [], length};
ghost use Rattle.demi_link.specs.Sights.{side_of};
ghost use Rattle.demi_memq.specs.declared.op.MemOp.TheVariants.{Stop as memory_stop};
ghost use Rattle.demi_pdpix.specs.Kinds.{kind_of};
ghost use Rattle.demi_pdpix.specs.Owing.{Owes};
ghost use Rattle.demi_pdpix.specs.Seen.{IsOf};
ghost use Rattle.demi_pdpix.specs.declared.kind.PortKind.TheVariants.{Service};
ghost use Rattle.demi_closed.specs.Closed.{Added};
ghost use Rattle.demi_context.specs.ContextPorts.{OwesLess, OwesMore, OwesSame, SameRx, SameTx};
ghost use Rattle.demi_context.specs.Halting.{GivesStop, HaltsAt, LinkHalts, Takes};
ghost use Rattle.demi_closed.specs.OnlyLink.{store_stop};

use crate::context::{receiving, sending};
use crate::holding::{hold, let_go};
use demi_pdpix::{Answer, Caller, Demi};
use demi_port::TokensFull;
use demi_port_core::QToken;
use demi_store::{StoreAsk, StoreLaw, StoreOp};
use std::sync::Wait;

// Submits the stop of a port that is not the service, again until it is taken. At another one it parks without end.
fn give_stop<R: Wait>(
    rt: &R,
    demi: &Demi<StoreLaw>,
    caller: &mut Caller<StoreLaw>,
    port: u16,
) -> QToken
    requires { IsOf demi.now caller.old }
    ensures of { IsOf demi.now caller.new }
    ensures port { result.port ≡ port }
    ensures gives { GivesStop demi.now (kind_of demi.now port) result.token.0 caller.old caller.new }
    ensures owes { OwesMore (kind_of demi.now port) caller.old caller.new }
{
    for _ in rt.forever() {
        match demi.stop(caller, port) {
            Ok(token) => return token,
            Err(_) => demi.park(rt, caller),
        }
    }
    unreachable!()
}

// A stop that was not taken has nothing to give back.
fn let_go_of_stop(refused: TokensFull<StoreLaw>)
    requires { refused.0 ≡ store_stop }
{
    let TokensFull(StoreAsk { sequence: _, op }) = refused;
    let StoreOp::Stop = op else { unreachable!() };
}

// Asks the store to stop, again until it is taken.
fn give_store_stop<R: Wait>(rt: &R, demi: &Demi<StoreLaw>, caller: &mut Caller<StoreLaw>) -> QToken
    requires { IsOf demi.now caller.old }
    ensures of { IsOf demi.now caller.new }
    ensures port { result.port ≡ 1 }
    ensures gives { GivesStop demi.now Service result.token.0 caller.old caller.new }
    ensures owes { OwesMore Service caller.old caller.new }
{
    for _ in rt.forever() {
        let stop = StoreAsk {
            sequence: 0,
            op: StoreOp::Stop,
        };
        match demi.ask(caller, stop) {
            Ok((token, _)) => return token,
            Err(refused) => {
                let_go_of_stop(refused);
                demi.park(rt, caller);
            }
        }
    }
    unreachable!()
}

// Waits for the outcome of a stop. Where the token is none of the caller's, or was redeemed before, it parks without end.
fn redeem<R: Wait>(rt: &R, demi: &Demi<StoreLaw>, caller: &mut Caller<StoreLaw>, token: QToken)
    requires { IsOf demi.now caller.old }
    ensures of { IsOf demi.now caller.new }
    ensures takes { Takes demi.now (kind_of demi.now token.port) token.token.0 caller.old caller.new }
    ensures owes { OwesLess (kind_of demi.now token.port) 1 caller.old caller.new }
{
    match demi.wait(rt, caller, token) {
        Answer::Ready(_, out) => let_go(rt, demi, caller, out),
        Answer::NotYet | Answer::Spent | Answer::Unknown => {
            let _never = hold(rt, demi, caller, ());
        }
    }
}

// Stops a port that is not the service, and redeems the stop.
fn halt<R: Wait>(rt: &R, demi: &Demi<StoreLaw>, caller: &mut Caller<StoreLaw>, port: u16)
    requires { IsOf demi.now caller.old }
    ensures of { IsOf demi.now caller.new }
    ensures halts { HaltsAt demi.now (kind_of demi.now port) caller.old caller.new }
    ensures owes { OwesSame caller.old caller.new }
{
    let token = give_stop(rt, demi, caller, port);
    redeem(rt, demi, caller, token);
}

// The same of the store.
fn halt_store<R: Wait>(rt: &R, demi: &Demi<StoreLaw>, caller: &mut Caller<StoreLaw>)
    requires { IsOf demi.now caller.old }
    ensures of { IsOf demi.now caller.new }
    ensures halts { HaltsAt demi.now Service caller.old caller.new }
    ensures owes { OwesSame caller.old caller.new }
{
    let token = give_store_stop(rt, demi, caller);
    redeem(rt, demi, caller, token);
}

/// Stops the memory queues and the store, whose devices then end, and waits until both stops are redeemed. Each is submitted again
/// until it is taken. Nothing else of the caller's ports changes.
pub fn stop_shared<R: Wait>(rt: &R, demi: &Demi<StoreLaw>, caller: &mut Caller<StoreLaw>)
    requires { IsOf demi.now caller.old }
    ensures of { IsOf demi.now caller.new }
    ensures memory { Added memory_stop (side_of caller.old.memory) caller.new.memory }
    ensures service { Added store_stop (side_of caller.old.service) caller.new.service }
    ensures rx { SameRx caller.old caller.new }
    ensures tx { SameTx caller.old caller.new }
    ensures owes { (n : ℕ) → Owes demi.now n [] caller.old → Owes demi.now n [] caller.new }
{
    halt(rt, demi, caller, 0);
    halt_store(rt, demi, caller);
}

/// Stops both ports of a link, the receiving one first, whose devices then end, and waits until both stops are redeemed, in the same
/// way. Neither at the store's port nor at those of other links anything changes. There are so many links; for one that is not there
/// it parks without end.
pub(crate) fn stop_link<R: Wait>(
    rt: &R,
    demi: &Demi<StoreLaw>,
    caller: &mut Caller<StoreLaw>,
    links: u16,
    link: u16,
)
    requires of { IsOf demi.now caller.old }
    requires count { (length demi.now.rx ≡ links) × (length demi.now.tx ≡ links) × (links ≤ 16) }
    ensures of { IsOf demi.now caller.new }
    ensures halts { LinkHalts link caller.old caller.new }
    ensures owes { OwesSame caller.old caller.new }
{
    if link >= links {
        let _never = hold(rt, demi, caller, ());
        unreachable!()
    }
    halt(rt, demi, caller, receiving(link));
    halt(rt, demi, caller, sending(link));
}

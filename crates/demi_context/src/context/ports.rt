//! What a worker's caller submits at the ports of its links.
ghost use Rattle.std.specs.Prelude.{◌≡◌, ℕ, ◌<◌, IfErr, IfNone, IfOk, IfSome, length};
ghost use Rattle.demi_sched.specs.Scanning.{IsWithin};
ghost use Rattle.demi_sga.specs.Arrays.{AreOf};
ghost use Rattle.demi_store.specs.Laws.{IsProperOp};
ghost use Rattle.demi_streamq.specs.declared.rx_op.RxOp.TheVariants.{Pop as pop_op};
ghost use Rattle.demi_streamq.specs.declared.tx_op.TxOp.TheVariants.{Push as push_op};
ghost use Rattle.demi_pdpix.specs.Seen.{IsOf};
ghost use Rattle.demi_pdpix.specs.declared.kind.PortKind.TheVariants.{Receiving, Sending, Service};
ghost use Rattle.demi_link.specs.Sights.{Submits, side_of};
ghost use Rattle.demi_context.specs.ContextPorts.{OwesMore, OwesSame, SameButRx, SameButStore, SameButTx, SameSides, SameStore, rx_port, side_at, tx_port};

use demi_pdpix::{Caller, Demi, PopRefused, PortKind, PushRefused, Qd};
use demi_port::TokensFull;
use demi_port_core::{Bits, Mask, QToken};
use demi_sga::{AppSga, LentSga};
use demi_store::{StoreAsk, StoreLaw, StoreOp};

// How many bytes a pop asks for.
const PIECE_BYTES: u32 = 4096;

// The port that receives from a link.
pub(crate) fn receiving(link: u16) -> u16
    requires { link < 16 }
    ensures { result ≡ rx_port link }
{
    3 + 2 * link
}

// The port that sends to a link.
pub(crate) fn sending(link: u16) -> u16
    requires { link < 16 }
    ensures { result ≡ tx_port link }
{
    4 + 2 * link
}

// Pops from the receiving port of a link, if a token can be had.
pub(crate) fn pop_at(
    demi: &Demi<StoreLaw>,
    caller: &mut Caller<StoreLaw>,
    link: u16,
) -> Option<QToken>
    requires of { IsOf demi.now caller.old }
    requires there { (link < length demi.now.rx) × (link < 16) }
    ensures of { IsOf demi.now caller.new }
    ensures others { SameButRx link caller.old caller.new }
    ensures some { IfSome result (λ t. (t.port ≡ rx_port link) × ((place : ℕ) × Submits place (side_at caller.old.rx link) (side_at caller.new.rx link) t.token.0 (pop_op 4096)) × OwesMore (Receiving link) caller.old caller.new) }
    ensures none { IfNone result ((side_at caller.new.rx link ≡ side_at caller.old.rx link) × OwesSame caller.old caller.new) }
{
    let qd = Qd {
        port: receiving(link),
        queue: 0,
    };
    match demi.pop(caller, qd, PIECE_BYTES) {
        Ok(token) => Some(token),
        Err(PopRefused::TokensFull) => None,
        Err(PopRefused::BadQd) => None,
        Err(PopRefused::BadSize) => None,
    }
}

// Pushes an array on the sending port of a link, if a token can be had.
pub(crate) fn push_at(
    demi: &Demi<StoreLaw>,
    caller: &mut Caller<StoreLaw>,
    link: u16,
    sga: AppSga,
) -> Result<(QToken, LentSga), AppSga>
    requires of { IsOf demi.now caller.old }
    requires there { (link < length demi.now.tx) × (link < 16) }
    requires array { AreOf demi.now.heap sga }
    ensures of { IsOf demi.now caller.new }
    ensures others { SameButTx link caller.old caller.new }
    ensures half { IfOk result (λ r. (r.0.port ≡ tx_port link) × (r.1 ≡ record { segments = sga; back = 0 })) }
    ensures ok { IfOk result (λ r. ((place : ℕ) × Submits place (side_at caller.old.tx link) (side_at caller.new.tx link) r.0.token.0 (push_op sga)) × OwesMore (Sending link) caller.old caller.new) }
    ensures err { IfErr result (λ a. (a ≡ sga) × (side_at caller.new.tx link ≡ side_at caller.old.tx link) × OwesSame caller.old caller.new) }
{
    let qd = Qd {
        port: sending(link),
        queue: 0,
    };
    match demi.push(caller, qd, sga) {
        Ok(pushed) => Ok(pushed),
        Err(PushRefused::TokensFull(sga)) => Err(sga),
        Err(PushRefused::BadQd(sga)) => Err(sga),
    }
}

// Asks the store, if a token can be had.
pub(crate) fn ask_at(
    demi: &Demi<StoreLaw>,
    caller: &mut Caller<StoreLaw>,
    sequence: u64,
    op: StoreOp,
) -> Result<QToken, StoreOp>
    requires of { IsOf demi.now caller.old }
    requires proper { IsProperOp op }
    ensures of { IsOf demi.now caller.new }
    ensures others { SameButStore caller.old caller.new }
    ensures ok { IfOk result (λ t. (t.port ≡ 1) × ((place : ℕ) × Submits place (side_of caller.old.service) (side_of caller.new.service) t.token.0 (record { sequence = sequence; op = op })) × OwesMore Service caller.old caller.new) }
    ensures err { IfErr result (λ o. (o ≡ op) × SameStore caller.old caller.new × OwesSame caller.old caller.new) }
{
    match demi.ask(caller, StoreAsk { sequence, op }) {
        Ok((token, _)) => Ok(token),
        Err(TokensFull(StoreAsk { sequence: _, op })) => Err(op),
    }
}

fn no_bits(mask: &Mask) -> Bits
    ensures { IsWithin result.words mask.now.words }
{
    Bits { words: [0; 16] }
}

// Takes waker bits at a port. Where there is no such port there are none.
pub(crate) fn scan_at(
    demi: &Demi<StoreLaw>,
    caller: &mut Caller<StoreLaw>,
    port: u16,
    mask: &Mask,
) -> Bits
    requires of { IsOf demi.now caller.old }
    ensures of { IsOf demi.now caller.new }
    ensures within { IsWithin result.words mask.now.words }
    ensures sides { SameSides caller.old caller.new }
    ensures owes { OwesSame caller.old caller.new }
{
    match demi.kind(port) {
        PortKind::Nowhere => no_bits(mask),
        _ => demi.scan(caller, port, mask),
    }
}

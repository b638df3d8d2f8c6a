//! What a worker's caller redeems at the ports of its links.
ghost use Rattle.std.specs.Prelude.{◌≡◌, ◌<◌, ◌≤◌, ◌⊎◌, length};
ghost use Rattle.demi_store.specs.Laws.{Admits};
ghost use Rattle.demi_streamq.specs.Receiving.{IsFrom, RxAdmits};
ghost use Rattle.demi_streamq.specs.Sending.{TxAdmits};
ghost use Rattle.demi_pdpix.specs.Answers.{IsRx, IsService, IsTx, rx_answer, service_answer, tx_answer};
ghost use Rattle.demi_pdpix.specs.Seen.{IsOf};
ghost use Rattle.demi_pdpix.specs.declared.kind.PortKind.TheVariants.{Receiving, Sending, Service};
ghost use Rattle.demi_link.specs.Events.{TriedBy, settled};
ghost use Rattle.demi_link.specs.Sights.{side_of};
ghost use Rattle.demi_context.specs.ContextPorts.{IsIn, OwesLess, SameButRx, SameButStore, SameButTx, side_at};

use super::ports::{receiving, sending};
use demi_pdpix::{Answer, Caller, Demi, QResult};
use demi_port::Redeem;
use demi_port_core::QToken;
use demi_store::StoreLaw;
use demi_streamq::{RxLaw, TxLaw};

fn rx_came(answer: Answer<StoreLaw>) -> Redeem<RxLaw>
    requires { IsIn IsRx answer }
    ensures { answer ≡ rx_answer result }
{
    match answer {
        Answer::Ready(place, came) => match came {
            QResult::Rx(out) => Redeem::Ready(place, out),
            _ => unreachable!(),
        },
        Answer::NotYet => Redeem::NotYet,
        Answer::Spent => Redeem::Spent,
        Answer::Unknown => Redeem::Unknown,
    }
}

fn tx_came(answer: Answer<StoreLaw>) -> Redeem<TxLaw>
    requires { IsIn IsTx answer }
    ensures { answer ≡ tx_answer result }
{
    match answer {
        Answer::Ready(place, came) => match came {
            QResult::Tx(out) => Redeem::Ready(place, out),
            _ => unreachable!(),
        },
        Answer::NotYet => Redeem::NotYet,
        Answer::Spent => Redeem::Spent,
        Answer::Unknown => Redeem::Unknown,
    }
}

fn store_came(answer: Answer<StoreLaw>) -> Redeem<StoreLaw>
    requires { IsIn IsService answer }
    ensures { answer ≡ service_answer result }
{
    match answer {
        Answer::Ready(place, came) => match came {
            QResult::Service(out) => Redeem::Ready(place, out),
            _ => unreachable!(),
        },
        Answer::NotYet => Redeem::NotYet,
        Answer::Spent => Redeem::Spent,
        Answer::Unknown => Redeem::Unknown,
    }
}

// Tries a token at the receiving port of a link. A token of another port is none of it, nor is one of a link that is not
// there.
pub(crate) fn rx_at(
    demi: &Demi<StoreLaw>,
    caller: &mut Caller<StoreLaw>,
    links: u16,
    link: u16,
    token: QToken,
) -> Redeem<RxLaw>
    requires of { IsOf demi.now caller.old }
    requires count { (length demi.now.rx ≡ links) × (links ≤ 16) }
    ensures of { IsOf demi.now caller.new }
    ensures others { SameButRx link caller.old caller.new }
    ensures tried { TriedBy (λ o h t p. RxAdmits h t p o × IsFrom demi.now.heap o) token.token.0 (side_at caller.old.rx link) (side_at caller.new.rx link) result }
    ensures owes { OwesLess (Receiving link) (settled result) caller.old caller.new }
{
    if link >= links || token.port != receiving(link) {
        return Redeem::Unknown;
    }
    rx_came(demi.try_wait(caller, token))
}

// Tries a token at the sending port of a link, likewise.
pub(crate) fn tx_at(
    demi: &Demi<StoreLaw>,
    caller: &mut Caller<StoreLaw>,
    links: u16,
    link: u16,
    token: QToken,
) -> Redeem<TxLaw>
    requires of { IsOf demi.now caller.old }
    requires count { (length demi.now.tx ≡ links) × (links ≤ 16) }
    ensures of { IsOf demi.now caller.new }
    ensures others { SameButTx link caller.old caller.new }
    ensures tried { TriedBy (λ o h t p. TxAdmits h t p o) token.token.0 (side_at caller.old.tx link) (side_at caller.new.tx link) result }
    ensures owes { OwesLess (Sending link) (settled result) caller.old caller.new }
{
    if link >= links || token.port != sending(link) {
        return Redeem::Unknown;
    }
    tx_came(demi.try_wait(caller, token))
}

// Tries a token of the store, likewise.
pub(crate) fn store_at(
    demi: &Demi<StoreLaw>,
    caller: &mut Caller<StoreLaw>,
    links: u16,
    link: u16,
    token: QToken,
) -> Redeem<StoreLaw>
    requires of { IsOf demi.now caller.old }
    ensures of { IsOf demi.now caller.new }
    ensures others { SameButStore caller.old caller.new }
    ensures tried { TriedBy (λ o h t p. Admits demi.now.service.key.base h t p o) token.token.0 (side_of caller.old.service) (side_of caller.new.service) result }
    ensures owes { OwesLess Service (settled result) caller.old caller.new }
    ensures there { (link < links) ⊎ (settled result ≡ 0) }
{
    if link >= links || token.port != 1 {
        return Redeem::Unknown;
    }
    store_came(demi.try_wait(caller, token))
}

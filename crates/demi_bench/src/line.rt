//! A link in three parts: its ports, which its worker and its devices share, what the worker has, and what the devices have.
ghost use Rattle.std.specs.Prelude.{◌≡◌, ℕ, ◌+◌, ◌<◌, IfSome, cond, length, true};
ghost use Rattle.demi_bench.specs.Linking.{IsLineOf, IsOver, IsPairOf, IsStill, OwesFor};
ghost use Rattle.demi_bench.specs.declared.line.Waits.TheVariants.{Nothing};

use crate::chain_loop::BATCH;
use crate::port_loop::submit;
use crate::way::{Station, Way};
use demi_bell::Bells;
use demi_port::{Port, PortPass, Redeem};
use demi_port_core::{Doubles, Token};
use std::alloc::Global;
use std::sync::{Arc, Wait};

/// The ports.
pub(crate) struct Wire {
    pub(crate) rx: Port<Doubles>,
    pub(crate) tx: Port<Doubles>,
}

/// The devices.
pub(crate) struct Pair {
    pub(crate) rx: Station,
    pub(crate) tx: Station,
}

/// The one token that a link awaits.
#[derive(Clone, Copy)]
pub(crate) enum Waits {
    Nothing,
    /// What comes from its source.
    Piece(Token),
    /// What the store says.
    Answer(Token),
    /// That its sink took what was sent.
    Sent(Token),
}

/// What the worker has.
pub(crate) struct Line {
    pub(crate) rx: PortPass<Doubles>,
    pub(crate) tx: PortPass<Doubles>,
    pub(crate) waits: Waits,
    pub(crate) served: u32,
}

// Whether the outcome is there. It is redeemed then.
fn has_come(port: &Port<Doubles>, pass: &mut PortPass<Doubles>, token: Token) -> bool
    requires { pass.old.port ≡ port.now }
    ensures same { (pass.new.port ≡ pass.old.port) × (pass.new.number ≡ pass.old.number) × (pass.new.submitted ≡ pass.old.submitted) }
    ensures redeemed { length pass.new.redeemed ≡ length pass.old.redeemed + cond result 1 0 }
{
    match port.try_wait(pass, token) {
        Redeem::Ready(_, _) => true,
        Redeem::NotYet | Redeem::Spent | Redeem::Unknown => false,
    }
}

/// A new link whose ports ring these bells. `None` is want of memory.
pub(crate) fn open_link(alloc: Global, bells: &Arc<Bells, Global>) -> Option<(Wire, Line, Pair)>
    ensures lines { IfSome result (λ r. (n : ℕ) → IsLineOf n r.0 r.1) }
    ensures waits { IfSome result (λ r. r.1.waits ≡ Nothing) }
    ensures pairs { IfSome result (λ r. IsPairOf r.0 r.2) }
{
    let rx = Way::open_at(alloc, bells)?;
    let Some(tx) = Way::open_at(alloc, bells) else {
        rx.close();
        return None;
    };
    let (rx, rx_pass, rx_station) = rx.apart();
    let (tx, tx_pass, tx_station) = tx.apart();
    let line = Line {
        rx: rx_pass,
        tx: tx_pass,
        waits: Waits::Nothing,
        served: 0,
    };
    let pair = Pair {
        rx: rx_station,
        tx: tx_station,
    };
    Some((Wire { rx, tx }, line, pair))
}

/// Closes the ports of a link of which nothing is under way.
pub(crate) fn close_link(wire: Wire, line: Line, pair: Pair)
    requires line { IsStill wire line }
    requires pair { IsPairOf wire pair }
{
    let Wire { rx, tx } = wire;
    let Line {
        rx: rx_pass,
        tx: tx_pass,
        waits: _,
        served: _,
    } = line;
    let Pair {
        rx: rx_station,
        tx: tx_station,
    } = pair;
    Way::whole(rx, rx_pass, rx_station).close();
    Way::whole(tx, tx_pass, tx_station).close();
}

impl Line {
    // Asks the store, for the request that is next.
    fn ask<R: Wait>(
        &mut self,
        rt: &R,
        requests: u32,
        wire: &Wire,
        store: &Port<Doubles>,
        pass: &mut PortPass<Doubles>,
    )
        requires line { IsLineOf requests wire.now self.old × (self.old.waits ≡ Nothing) × (self.old.served < requests) }
        requires store { pass.old.port ≡ store.now }
        ensures line { IsLineOf requests wire.now self.new }
        ensures store { OwesFor self.old pass.old self.new pass.new }
    {
        let _ = requests;
        let _ = wire;
        self.waits = Waits::Answer(submit(rt, store, pass, self.served));
    }

    // Begins the request that is next, if one is left: now and then with a pop, else with an ask. Whether it did.
    fn begin<R: Wait>(
        &mut self,
        rt: &R,
        requests: u32,
        wire: &Wire,
        store: &Port<Doubles>,
        pass: &mut PortPass<Doubles>,
    ) -> bool
        requires line { IsLineOf requests wire.now self.old × (self.old.waits ≡ Nothing) }
        requires store { pass.old.port ≡ store.now }
        ensures line { IsLineOf requests wire.now self.new }
        ensures store { OwesFor self.old pass.old self.new pass.new }
    {
        if self.served >= requests {
            return false;
        }
        if self.served % BATCH == 0 {
            self.waits = Waits::Piece(submit(rt, &wire.rx, &mut self.rx, self.served));
        } else {
            self.ask(rt, requests, wire, store, pass);
        }
        true
    }

    /// Looks once whether the token that it awaits is done, and if so submits what comes next. Whether it did.
    pub(crate) fn look<R: Wait>(
        &mut self,
        rt: &R,
        requests: u32,
        wire: &Wire,
        store: &Port<Doubles>,
        pass: &mut PortPass<Doubles>,
    ) -> bool
        requires line { IsLineOf requests wire.now self.old }
        requires store { pass.old.port ≡ store.now }
        ensures line { IsLineOf requests wire.now self.new }
        ensures store { OwesFor self.old pass.old self.new pass.new }
    {
        match self.waits {
            Waits::Nothing => self.begin(rt, requests, wire, store, pass),
            Waits::Piece(token) => {
                if !has_come(&wire.rx, &mut self.rx, token) {
                    return false;
                }
                self.waits = Waits::Nothing;
                self.ask(rt, requests, wire, store, pass);
                true
            }
            Waits::Answer(token) => {
                if !has_come(store, pass, token) {
                    return false;
                }
                self.waits = Waits::Sent(submit(rt, &wire.tx, &mut self.tx, self.served));
                true
            }
            Waits::Sent(token) => {
                if !has_come(&wire.tx, &mut self.tx, token) {
                    return false;
                }
                self.waits = Waits::Nothing;
                self.served += 1;
                let _more = self.begin(rt, requests, wire, store, pass);
                true
            }
        }
    }

    /// Whether each of so many requests was served.
    pub(crate) fn is_over(&self, requests: u32) -> bool
        ensures { result ≡ true → IsOver requests self.now }
    {
        matches!(self.waits, Waits::Nothing) && self.served == requests
    }
}

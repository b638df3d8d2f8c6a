//! One operation on a port, from its submission to its outcome.
ghost use Rattle.std.specs.Prelude.{◌≡◌, ℕ, ◌+◌, length};
ghost use Rattle.demi_copy.specs.Calm.{IsCalm};

use demi_port::{Port, PortPass, Redeem, TokensFull};
use demi_port_core::{Law, Token};
use std::sync::Wait;

// Submits until a token is had.
fn ask<R: Wait, L: Law>(rt: &R, port: &Port<L>, pass: &mut PortPass<L>, op: L::Op) -> Token
    requires port { pass.old.port ≡ port.now }
    requires proper { L.proper port.now.key.base (L.said op) }
    ensures same { (pass.new.port ≡ pass.old.port) × (pass.new.number ≡ pass.old.number) }
    ensures one { (length pass.new.submitted ≡ length pass.old.submitted + 1) × (pass.new.redeemed ≡ pass.old.redeemed) }
{
    let mut next = op;
    for _ in rt.forever() {
        match port.submit(pass, next) {
            Ok((token, _)) => return token,
            Err(TokensFull(back)) => {
                next = back;
                port.park(rt, pass);
            }
        }
    }
    unreachable!()
}

// Tries until the outcome is there. A pass's own token that it did not redeem is neither spent nor unknown.
fn redeem<R: Wait, L: Law>(rt: &R, port: &Port<L>, pass: &mut PortPass<L>, token: Token) -> L::Out
    requires port { pass.old.port ≡ port.now }
    ensures same { (pass.new.port ≡ pass.old.port) × (pass.new.number ≡ pass.old.number) }
    ensures one { (pass.new.submitted ≡ pass.old.submitted) × (length pass.new.redeemed ≡ length pass.old.redeemed + 1) }
    ensures admitted { (p : ℕ) × L.admits port.now.key.base pass.new.heard pass.new.trail p result }
{
    for _ in rt.forever() {
        match port.try_wait(pass, token) {
            Redeem::Ready(_, out) => return out,
            Redeem::NotYet | Redeem::Spent | Redeem::Unknown => port.park(rt, pass),
        }
    }
    unreachable!()
}

// Submits the operation, and redeems it once its outcome is there.
pub(crate) fn call<R: Wait, L: Law>(
    rt: &R,
    port: &Port<L>,
    pass: &mut PortPass<L>,
    op: L::Op,
) -> L::Out
    requires calm { IsCalm port.now pass.old }
    requires proper { L.proper port.now.key.base (L.said op) }
    ensures calm { IsCalm port.now pass.new }
    ensures admitted { (p : ℕ) × L.admits port.now.key.base pass.new.heard pass.new.trail p result }
{
    let token = ask(rt, port, pass, op);
    redeem(rt, port, pass, token)
}

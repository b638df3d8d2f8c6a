//! Calls of one port of several.
ghost use Rattle.std.specs.Prelude.{◌≡◌, ◌<◌, map, IfOk, IfErr, length, slice_index_or};
ghost use Rattle.demi_pdpix.specs.Lanes.{LaneValue, port_of};
ghost use Rattle.demi_pdpix.specs.Seen.{AreAt};
ghost use Rattle.demi_pdpix.specs.Calls.{Changed, FoundNone, Submitted, SubmittedAt};
ghost use Rattle.demi_pdpix.specs.Answers.{TriedBy};
ghost use Rattle.demi_pdpix.specs.Notes.{Scanned, each_learnt, learnt, noted};

use crate::lane::Lane;
use demi_port::{Port, PortPass, Redeem, TokensFull};
use demi_port_core::{Bits, Law, Mask, Place, Token};

// Submits an operation, which comes back where no token could be had.
pub(crate) fn submit_to<L: Law>(
    port: &Port<L>,
    pass: &mut PortPass<L>,
    op: L::Op,
) -> Result<(Token, Place), L::Op>
    requires port { pass.old.port ≡ port.now }
    requires proper { L.proper port.now.key.base (L.said op) }
    ensures port { pass.new.port ≡ port.now }
    ensures ok { IfOk result (λ r. SubmittedAt r.1.0 pass.old pass.new r.0.0 (L.said op)) }
    ensures full { IfErr result (λ o. (o ≡ op) × FoundNone pass.old pass.new) }
{
    match port.submit(pass, op) {
        Ok(given) => Ok(given),
        Err(TokensFull(op)) => Err(op),
    }
}

// Submits an operation to the port `k`.
pub(crate) fn submit_at<L: Law>(
    lanes: &Vec<Lane<L>>,
    passes: &mut Vec<PortPass<L>>,
    k: usize,
    op: L::Op,
) -> Result<Token, L::Op>
    requires place { k < length lanes.now.items }
    requires ports { AreAt passes.old.items (map port_of lanes.now.items) }
    requires proper { (e : LaneValue L.Said L.Told L.Base) → L.proper (slice_index_or lanes.now.items k e).port.key.base (L.said op) }
    ensures ok { IfOk result (λ t. Changed k passes.old.items passes.new.items (λ p q. Submitted p q t.0 (L.said op))) }
    ensures full { IfErr result (λ o. (o ≡ op) × Changed k passes.old.items passes.new.items FoundNone) }
    ensures ports { AreAt passes.new.items (map port_of lanes.now.items) }
{
    match submit_to(&lanes[k].port, &mut passes[k], op) {
        Ok((token, _)) => Ok(token),
        Err(op) => Err(op),
    }
}

// Tries to redeem a token.
pub(crate) fn try_port<L: Law>(port: &Port<L>, pass: &mut PortPass<L>, token: Token) -> Redeem<L>
    requires port { pass.old.port ≡ port.now }
    ensures port { pass.new.port ≡ port.now }
    ensures tried { TriedBy L.admits token.0 pass.old pass.new result }
{
    port.try_wait(pass, token)
}

// Tries to redeem a token of the port `k`.
pub(crate) fn try_at<L: Law>(
    lanes: &Vec<Lane<L>>,
    passes: &mut Vec<PortPass<L>>,
    k: usize,
    token: Token,
) -> Redeem<L>
    requires place { k < length lanes.now.items }
    requires ports { AreAt passes.old.items (map port_of lanes.now.items) }
    ensures tried { Changed k passes.old.items passes.new.items (λ p q. TriedBy L.admits token.0 p q result) }
    ensures ports { AreAt passes.new.items (map port_of lanes.now.items) }
{
    try_port(&lanes[k].port, &mut passes[k], token)
}

// The waker bits of the mask that were set.
pub(crate) fn scan_port<L: Law>(port: &Port<L>, pass: &mut PortPass<L>, mask: &Mask) -> Bits
    requires port { pass.old.port ≡ port.now }
    ensures port { pass.new.port ≡ port.now }
    ensures bits { Scanned mask.now.words result.words pass.old pass.new }
{
    port.scan(pass, mask)
}

// Those of the port `k`.
pub(crate) fn scan_at<L: Law>(
    lanes: &Vec<Lane<L>>,
    passes: &mut Vec<PortPass<L>>,
    k: usize,
    mask: &Mask,
) -> Bits
    requires place { k < length lanes.now.items }
    requires ports { AreAt passes.old.items (map port_of lanes.now.items) }
    ensures bits { Changed k passes.old.items passes.new.items (Scanned mask.now.words result.words) }
    ensures ports { AreAt passes.new.items (map port_of lanes.now.items) }
{
    scan_port(&lanes[k].port, &mut passes[k], mask)
}

// The pass learns what another has seen.
pub(crate) fn learn_port<L: Law>(port: &Port<L>, pass: &mut PortPass<L>, from: &mut PortPass<L>)
    requires port { (pass.old.port ≡ port.now) × (from.old.port ≡ port.now) }
    ensures pass { pass.new ≡ learnt pass.old from.old }
    ensures from { from.new ≡ noted from.old }
{
    let note = port.note(from);
    port.learn(pass, note);
}

// Each pass learns what the one at its place has seen.
pub(crate) fn learn_each<L: Law>(
    lanes: &Vec<Lane<L>>,
    passes: &mut Vec<PortPass<L>>,
    from: &mut Vec<PortPass<L>>,
)
    requires passes { AreAt passes.old.items (map port_of lanes.now.items) }
    requires from { AreAt from.old.items (map port_of lanes.now.items) }
    ensures passes { passes.new.items ≡ each_learnt passes.old.items from.old.items }
    ensures from { from.new.items ≡ map noted from.old.items }
{
    for k in 0..lanes.len() {
        learn_port(&lanes[k].port, &mut passes[k], &mut from[k]);
    }
}

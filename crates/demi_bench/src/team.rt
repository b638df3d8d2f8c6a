//! A worker of a session with its links.
ghost use Rattle.std.specs.Prelude.{◌≡◌, ℕ, ◌<◌, [], IfErr, IfOk, vec_capacity};
ghost use Rattle.demi_bench.specs.Asking.{IsEven};
ghost use Rattle.demi_bench.specs.Linking.{ArePaired, AreIdle, IsLineOf, IsPairOf, IsStill};

use crate::line::{Line, Pair, Wire, close_link, open_link};
use crate::session_work::{Duty, serve};
use demi_bell::Bells;
use demi_port::{Port, PortPass};
use demi_port_core::Doubles;
use std::alloc::Global;
use std::marker::Model;
use std::sync::{Arc, Wait};
use std::thread::Threads;

/// A worker's pass of the store's port, and its links. A contract sees the pass.
pub(crate) struct Team {
    duty: Duty,
    store: PortPass<Doubles>,
    wires: Vec<Wire>,
    lines: Vec<Line>,
    pairs: Vec<Pair>,
}

impl Model for Team {
    ghost use Rattle.std.specs.Prelude.{◌≡◌, ℕ, ◌<◌, length, slice_index_or};
    ghost use Rattle.demi_port.specs.Seen.{PassValue};
    ghost use Rattle.demi_bench.specs.Linking.{ArePaired, AreIdle, IsLineOf, IsPairOf};

    ghost Value = { PassValue ℕ (Unit {0}) (Unit {0}) };

    ghost view = { λ t. t.store };

    ghost invariant = { λ t. (t.duty.number < 64) × ArePaired (IsLineOf t.duty.requests) t.wires.items t.lines.items × AreIdle t.lines.items × ArePaired IsPairOf t.wires.items t.pairs.items };
}

// Adds so many new links, whose ports ring these bells. Whether there was memory for all.
fn add_links(
    alloc: Global,
    bells: &Arc<Bells, Global>,
    wires: &mut Vec<Wire>,
    lines: &mut Vec<Line>,
    pairs: &mut Vec<Pair>,
    count: u32,
) -> bool
    requires empty { (wires.old.items ≡ []) × (lines.old.items ≡ []) × (pairs.old.items ≡ []) }
    requires room { (vec_capacity wires.old ≡ count) × (vec_capacity lines.old ≡ count) × (vec_capacity pairs.old ≡ count) }
    ensures lines { (n : ℕ) → ArePaired (IsLineOf n) wires.new.items lines.new.items }
    ensures idle { AreIdle lines.new.items }
    ensures pairs { ArePaired IsPairOf wires.new.items pairs.new.items }
{
    for _ in 0..count {
        let Some((wire, line, pair)) = open_link(alloc, bells) else {
            return false;
        };
        wires.push_reserved(wire);
        lines.push_reserved(line);
        pairs.push_reserved(pair);
    }
    true
}

// Closes the ports of the links.
fn close_links(mut wires: Vec<Wire>, mut lines: Vec<Line>, mut pairs: Vec<Pair>)
    requires lines { ArePaired IsStill wires.items lines.items }
    requires pairs { ArePaired IsPairOf wires.items pairs.items }
{
    'closing: while let Some(wire) = wires.pop() {
        let Some(line) = lines.pop() else {
            unreachable!()
        };
        let Some(pair) = pairs.pop() else {
            unreachable!()
        };
        close_link(wire, line, pair);
    }
    wires.destroy_empty();
    lines.destroy_empty();
    pairs.destroy_empty();
}

impl Team {
    /// A worker with so many new links, whose ports ring these bells. The pass comes back for want of memory.
    pub(crate) fn open(
        alloc: Global,
        bells: &Arc<Bells, Global>,
        duty: Duty,
        store: PortPass<Doubles>,
        links: u32,
    ) -> Result<Team, PortPass<Doubles>>
        requires { duty.number < 64 }
        ensures made { IfOk result (λ t. t ≡ store) }
        ensures back { IfErr result (λ p. p ≡ store) }
    {
        let Ok(mut wires) = Vec::with_capacity(alloc, links as usize) else {
            return Err(store);
        };
        let Ok(mut lines) = Vec::with_capacity(alloc, links as usize) else {
            wires.destroy_empty();
            return Err(store);
        };
        let Ok(mut pairs) = Vec::with_capacity(alloc, links as usize) else {
            wires.destroy_empty();
            lines.destroy_empty();
            return Err(store);
        };
        if !add_links(alloc, bells, &mut wires, &mut lines, &mut pairs, links) {
            close_links(wires, lines, pairs);
            return Err(store);
        }
        Ok(Team {
            duty,
            store,
            wires,
            lines,
            pairs,
        })
    }

    /// Serves the links, all their threads at once.
    pub(crate) fn serve<R: Threads + Wait + Sync>(&mut self, rt: &R, store: &Port<Doubles>)
        requires { IsEven store.now self.old }
        ensures { IsEven store.now self.new × (self.new.number ≡ self.old.number) }
    {
        let Team {
            duty,
            store: pass,
            wires,
            lines,
            pairs,
        } = self;
        serve(rt, *duty, wires, store, pass, lines, pairs);
    }

    /// Closes the ports of the links, and gives the pass.
    pub(crate) fn close(self) -> PortPass<Doubles>
        ensures { result ≡ self }
    {
        let Team {
            duty: _,
            store,
            wires,
            lines,
            pairs,
        } = self;
        close_links(wires, lines, pairs);
        store
    }
}

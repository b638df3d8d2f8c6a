//! How all workers of a session are hired, and taken apart again.
ghost use Rattle.std.specs.Prelude.{◌≡◌, ◌≤◌, ◌<◌, [], All, Some, length};
ghost use Rattle.std.specs.Vec.{vec_capacity};
ghost use Rattle.demi_crew.specs.Serving.{HasLinks, IsEmpty};
ghost use Rattle.demi_sharing.specs.Setting.{AreSetOut};
ghost use Rattle.demi_roster.specs.Hands.{AreDone, MayFinish, hands_of};
ghost use Rattle.demi_roster.specs.Hiring.{HasHired, HasParted};

use crate::bench::Bench;
use crate::hand::Hand;
use arrayvec::ArrayVec;
use demi_pdpix::{Caller, Demi};
use demi_port_core::QToken;
use demi_store::StoreLaw;
use demi_worker::Ended;
use std::alloc::Global;

// The next worker is hired, with the first of these callers at the first of these benches.
fn hire_next<'h>(
    alloc: Global,
    demi: &'h Demi<StoreLaw>,
    number: u8,
    links: u16,
    opening: Option<QToken>,
    callers: &mut Vec<Caller<StoreLaw>>,
    benches: &mut Vec<Bench<'h>>,
) -> Hand<'h>
    requires whole { HasLinks links demi.now }
    requires some { 0 < length callers.old.items }
    requires set_out { AreSetOut demi.now number opening callers.old.items }
    requires benches { (length benches.old.items ≡ length callers.old.items) × All (IsEmpty links links) benches.old.items }
    ensures { HasHired links demi.now number opening callers.old.items callers.new.items benches.old.items benches.new.items result }
{
    let caller = callers.remove(0);
    let bench = benches.remove(0);
    Hand::make(alloc, demi, number, links, caller, opening, bench)
}

/// Hires a worker for each of these callers, with the numbers from 0 on, at a bench of its own: into `crew`, which is empty and has room for
/// all. By `opening` the first one's caller asked for the queue of the links' numbers.
pub fn hire_all<'h>(
    alloc: Global,
    demi: &'h Demi<StoreLaw>,
    links: u16,
    opening: QToken,
    mut callers: Vec<Caller<StoreLaw>>,
    mut benches: Vec<Bench<'h>>,
    crew: &mut Vec<Hand<'h>>,
)
    requires whole { HasLinks links demi.now }
    requires few { length callers.items ≤ 4 }
    requires set_out { AreSetOut demi.now 0 (Some opening) callers.items }
    requires benches { (length benches.items ≡ length callers.items) × All (IsEmpty links links) benches.items }
    requires room { (crew.old.items ≡ []) × (length callers.items ≤ vec_capacity crew.old) }
    ensures { crew.new.items ≡ hands_of demi.now 0 (Some opening) callers.items }
{
    let mut opening = Some(opening);
    for number in 0..callers.len() {
        let hand = hire_next(
            alloc,
            demi,
            number as u8,
            links,
            opening,
            &mut callers,
            &mut benches,
        );
        crew.push_reserved(hand);
        opening = None;
    }
    callers.destroy_empty();
    benches.destroy_empty();
}

// The first of the workers is taken apart.
fn part_next<'h>(crew: &mut Vec<Hand<'h>>) -> (Caller<StoreLaw>, ArrayVec<Ended, 64>)
    requires some { 0 < length crew.old.items }
    requires done { All MayFinish crew.old.items }
    ensures { HasParted crew.old.items crew.new.items result.0 result.1 }
{
    crew.remove(0).parts()
}

/// Takes all workers apart, whose work is done: each one's caller comes behind `callers`, and what became of its links behind `ended`. Both
/// are empty and have room for all.
pub fn part_all(
    mut crew: Vec<Hand>,
    callers: &mut Vec<Caller<StoreLaw>>,
    ended: &mut Vec<ArrayVec<Ended, 64>>,
)
    requires done { All MayFinish crew.items }
    requires callers { (callers.old.items ≡ []) × (length crew.items ≤ vec_capacity callers.old) }
    requires ended { (ended.old.items ≡ []) × (length crew.items ≤ vec_capacity ended.old) }
    ensures { AreDone crew.entry.items callers.new.items ended.new.items }
{
    for _ in 0..crew.len() {
        let (caller, listed) = part_next(&mut crew);
        callers.push_reserved(caller);
        ended.push_reserved(listed);
    }
    crew.destroy_empty();
}

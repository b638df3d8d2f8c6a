//! How a heap is made.
ghost use Rattle.std.specs.Prelude.{◌≡◌, ◌+◌, ◌<◌, ◌≤◌, [], ◌++◌, All, length, vec_len, vec_capacity, IfOk};
ghost use Rattle.demi_heap_core.specs.Owner.{slots};
ghost use Rattle.demi_heap_core.specs.Schedule.{first_view};
ghost use Rattle.demi_heap.specs.Laid.{HasClasses, IsLaid, counts_shape};
ghost use Rattle.demi_heap.specs.Seen.{HeapId, IsShape, new_pass};

use crate::carve::{carve_all, dismantle};
use crate::counts::Counts;
use crate::heap::Heap;
use crate::key::{Carve, Key};
use crate::near::Near;
use crate::pass::HeapPass;
use crate::steps::deal_one;
use crate::table::{HeapSeat, Slots};
use atomic_table::{Refused, Table};
use demi_buf::{BLOCK_LIMIT, Buf};
use demi_core::NoMemory;
use std::alloc::Global;

// Gives the superblocks back: there was no memory.
fn undo(key: Key, row: Vec<Option<Buf>>) -> NoMemory
    requires { IsLaid key.blocks row.items }
{
    let Key {
        counts: _,
        passes: _,
        carves,
    } = key;
    dismantle(carves, row);
    NoMemory
}

// The table over a row of slots, with the seat that has all passes.
fn lay(alloc: Global, key: Key, row: Vec<Option<Buf>>) -> Result<(Heap, HeapSeat), NoMemory>
    requires laid { IsLaid key.blocks row.items × HasClasses key row.items }
    requires size { (length row.items ≡ slots key) × (0 < slots key) × (slots key < 65536) × (1 ≤ key.passes) }
    ensures { IfOk result (λ r. (r.0.shape ≡ key) × (r.1.table_id ≡ r.0.table) × (r.1.me ≡ (first_view key, []))) }
{
    let words = match Vec::from_elem(alloc, 0u64, row.len()) {
        Ok(words) => words,
        Err(_) => return Err(undo(key, row)),
    };
    match Table::new(alloc, words.as_slice(), row, &key) {
        Ok((table, seat)) => Ok((Heap { table, key }, seat)),
        Err(Refused { slots }) => Err(undo(key, slots)),
    }
}

// The superblocks and the table.
fn build(alloc: Global, counts: Counts, passes: u32) -> Result<(Heap, HeapSeat), NoMemory>
    requires counts { (counts.small ≤ 4096) × (counts.page ≤ 4096) × (counts.large ≤ 4096) × (1 ≤ counts.small + counts.page + counts.large) }
    requires passes { 1 ≤ passes }
    ensures { IfOk result (λ r. IsShape r.0.shape counts passes × (r.1.table_id ≡ r.0.table) × (r.1.me ≡ (first_view r.0.shape, []))) }
{
    let blocks = counts.small.div_ceil(BLOCK_LIMIT)
        + counts.page.div_ceil(BLOCK_LIMIT)
        + counts.large.div_ceil(BLOCK_LIMIT);
    let Ok(mut carves) = Vec::<Carve>::with_capacity(alloc, blocks as usize) else {
        return Err(NoMemory);
    };
    let slots = counts.small + counts.page + counts.large;
    let Ok(mut row) = Vec::<Option<Buf>>::with_capacity(alloc, slots as usize) else {
        carves.destroy_empty();
        return Err(NoMemory);
    };
    match carve_all(alloc, &mut carves, &mut row, &counts) {
        Ok(()) => lay(
            alloc,
            Key {
                counts,
                passes,
                carves,
            },
            row,
        ),
        Err(e) => {
            dismantle(carves, row);
            Err(e)
        }
    }
}

// Deals the passes out, one by one.
fn deal(words: &Slots, mut seat: HeapSeat, counts: &Counts, count: u32, passes: &mut Vec<HeapPass>)
    requires table { (seat.table_id ≡ words.now.table_id) × (0 < words.now.table_id.words) × (1 ≤ count) }
    requires seat { (seat.me ≡ (first_view words.now.key, [])) × (words.now.key.passes ≡ count) }
    requires room { (passes.old.items ≡ []) × (vec_len passes.old ≡ 0) × (count ≤ vec_capacity passes.old) }
    ensures len { length passes.new.items ≡ count }
    ensures new { All (λ p. p ≡ new_pass record { table = words.now.table_id; shape = words.now.key }) passes.new.items }
{
    let mut near = Near::first_of(counts, count);
    for _ in 1..count {
        let one = deal_one(words, &mut seat);
        let next = near.next_of(counts, count);
        passes.push_reserved(HeapPass { seat: one, near });
        near = next;
    }
    passes.push_reserved(HeapPass { seat, near });
}

impl Heap {
    /// A heap with these counts of slots, all free, and this many passes.
    pub fn make(
        alloc: Global,
        counts: Counts,
        passes: u32,
    ) -> Result<(Heap, Vec<HeapPass>), NoMemory>
        requires counts { (counts.small ≤ 4096) × (counts.page ≤ 4096) × (counts.large ≤ 4096) × (1 ≤ counts.small + counts.page + counts.large) }
        requires passes { (1 ≤ passes) × (passes ≤ 256) }
        ensures heap { IfOk result (λ r. IsShape r.0.shape counts passes) }
        ensures passes { IfOk result (λ r. (length r.1.items ≡ passes) × All (λ p. p ≡ new_pass r.0) r.1.items) }
    {
        let Ok(mut dealt) = Vec::with_capacity(alloc, passes as usize) else {
            return Err(NoMemory);
        };
        let (heap, seat) = build(alloc, counts, passes)?;
        deal(
            &heap.table.shared,
            seat,
            &heap.key.counts,
            passes,
            &mut dealt,
        );
        Ok((heap, dealt))
    }
}

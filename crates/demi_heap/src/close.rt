//! How a heap ends.
ghost use Rattle.std.specs.Prelude.{◌≡◌, ℕ, ◌+◌, ◌-◌, ◌<◌, ◌≤◌, [], ◌∷◌, ◌++◌, All, IsTrue, length, take, sum_by, vec_len};
ghost use Rattle.std.specs.Slots.{IsFull, slots_filled, slots_items, slots_len};
ghost use mathlib.Core.Option.{some};
ghost use lib.ListN.{get_elem?};
ghost use Rattle.demi_heap_core.specs.declared.view.Halves.TheVariants.{Neither};
ghost use Rattle.demi_heap_core.specs.Owner.{slots, total, app_bit, device_bit};
ghost use Rattle.demi_heap.specs.Laid.{CountsWords, is, IsHome, IsTakenFrom, IsWholeFrom, places};
ghost use Rattle.demi_heap.specs.Seen.{claims, ends, loans, returns};

use crate::heap::Heap;
use crate::key::{Carve, Key};
use crate::pass::HeapPass;
use crate::steps::take_pass;
use crate::table::{HeapSeat, Slots};
use atomic_table::Closed;
use demi_buf::{Block, Buf};
use std::alloc::Global;

/// How many slots were free, with an application half alone, with both halves, and with a device half alone.
#[derive(Clone, Copy, PartialEq, Eq, Debug)]
pub struct HeapEnd {
    /// Slots with no owner.
    pub free: u32,
    /// Slots with an application half alone.
    pub app: u32,
    /// Slots with both halves.
    pub lent: u32,
    /// Slots with a device half alone.
    pub dev: u32,
}

type Ended = Closed<Option<Buf>, Global>;

// A seat with a pass takes in one more.
fn take_in(words: &Slots, seat: &mut HeapSeat, pass: HeapPass)
    requires table { (seat.old.table_id ≡ words.now.table_id) × (pass.heap.table ≡ words.now.table_id) × (0 < words.now.table_id.words) }
    requires some { 1 ≤ seat.old.me.0.passes }
    ensures seat { (seat.new.table_id ≡ seat.old.table_id) × (seat.new.me.1 ≡ seat.old.me.1) × (seat.new.me.0.passes ≡ seat.old.me.0.passes + 1) }
    ensures claims { (seat.new.me.0.claimed ≡ seat.old.me.0.claimed + pass.claimed) × (seat.new.me.0.ended ≡ seat.old.me.0.ended + pass.ended) }
    ensures loans { (seat.new.me.0.loaned ≡ seat.old.me.0.loaned + pass.loaned) × (seat.new.me.0.returned ≡ seat.old.me.0.returned + pass.returned) }
{
    let HeapPass {
        seat: other,
        near: _,
    } = pass;
    take_pass(words, seat, other);
}

// The passes, joined into one.
fn gather(words: &Slots, mut passes: Vec<HeapPass>) -> HeapSeat
    requires some { 0 < length passes.items }
    requires table { (0 < words.now.table_id.words) × All (λ p. p.heap.table ≡ words.now.table_id) passes.items }
    ensures seat { (result.table_id ≡ words.now.table_id) × (result.me.1 ≡ []) × (result.me.0.passes ≡ length passes.items) }
    ensures claims { (result.me.0.claimed ≡ sum_by claims passes.items) × (result.me.0.ended ≡ sum_by ends passes.items) }
    ensures loans { (result.me.0.loaned ≡ sum_by loans passes.items) × (result.me.0.returned ≡ sum_by returns passes.items) }
{
    let first = passes.pop().unwrap();
    let HeapPass { mut seat, near: _ } = first;
    while let Some(pass) = passes.pop() {
        take_in(words, &mut seat, pass);
    }
    passes.destroy_empty();
    seat
}

// The count with one more word.
fn tally(end: HeapEnd, word: u64) -> HeapEnd
    requires { (word ≤ 3) × (end.free + end.app + end.lent + end.dev < 65536) }
    ensures one { (result.free ≡ end.free + is 0 word) × (result.app ≡ end.app + is 1 word) × (result.lent ≡ end.lent + is 3 word) × (result.dev ≡ end.dev + is 2 word) }
    ensures bits { (is 1 word + is 3 word ≡ app_bit word) × (is 3 word + is 2 word ≡ device_bit word) × (is 0 word + is 1 word + is 2 word + is 3 word ≡ 1) }
{
    let mut end = end;
    match word {
        0 => end.free += 1,
        1 => end.app += 1,
        2 => end.dev += 1,
        _ => end.lent += 1,
    }
    end
}

fn count(closed: &Ended, slots: u32) -> HeapEnd
    requires words { IsFull closed.now.words × (slots_len closed.now.words ≡ slots) × (slots < 65536) }
    requires bits { (k w : ℕ) → get_elem? (slots_items closed.now.words) k ≡ some w → w ≤ 3 }
    ensures apps { result.app + result.lent ≡ total app_bit (take slots (slots_items closed.now.words)) }
    ensures devices { result.lent + result.dev ≡ total device_bit (take slots (slots_items closed.now.words)) }
    ensures all { result.free + result.app + result.lent + result.dev ≡ slots }
    ensures each { let words = take slots (slots_items closed.now.words) in (result.free ≡ total (is 0) words) × (result.app ≡ total (is 1) words) × (result.lent ≡ total (is 3) words) × (result.dev ≡ total (is 2) words) }
{
    let mut end = HeapEnd {
        free: 0,
        app: 0,
        lent: 0,
        dev: 0,
    };
    for i in 0..slots {
        end = tally(end, closed.word(i as usize));
    }
    end
}

// Whether no slot from `first` on, below `end`, has an owner.
fn all_free(closed: &Ended, first: u32, end: u32) -> bool
    requires { IsFull closed.now.words × (end ≤ slots_len closed.now.words) × (first ≤ end) }
    ensures { IsTrue result → (k : ℕ) → first ≤ k → k < end → get_elem? (slots_items closed.now.words) k ≡ some 0 }
{
    for slot in first..end {
        if closed.word(slot as usize) != 0 {
            return false;
        }
    }
    true
}

// Takes the value of the last slot that has one, `slot`.
fn take_at(closed: &mut Ended, slot: u32) -> Option<Buf>
    requires { (slot < slots_len closed.old.slots) × IsTakenFrom (slots_filled closed.old.slots) (slots_len closed.old.slots) (slot + 1) }
    ensures value { get_elem? (slots_items closed.old.slots) slot ≡ some result }
    ensures taken { IsTakenFrom (slots_filled closed.new.slots) (slots_len closed.new.slots) slot }
    ensures same { (slots_items closed.new.slots ≡ slots_items closed.old.slots) × (slots_len closed.new.slots ≡ slots_len closed.old.slots) × (closed.new.words ≡ closed.old.words) }
{
    closed.take(slot as usize)
}

// Joins the superblock whose slots end at `end`: its buffers are at home.
fn join_block(closed: &mut Ended, end: u32, carve: Carve)
    requires range { (carve.count ≤ end) × (end ≤ slots_len closed.old.slots) × IsTakenFrom (slots_filled closed.old.slots) (slots_len closed.old.slots) end }
    requires home { IsWholeFrom (end - carve.count) (slots_items closed.old.slots) carve }
    ensures taken { IsTakenFrom (slots_filled closed.new.slots) (slots_len closed.new.slots) (end - carve.count) }
    ensures same { (slots_items closed.new.slots ≡ slots_items closed.old.slots) × (slots_len closed.new.slots ≡ slots_len closed.old.slots) × (closed.new.words ≡ closed.old.words) }
{
    let Carve {
        count,
        class: _,
        place: _,
        mut bufs,
    } = carve;
    for taken in 0..count {
        match take_at(closed, end - taken - 1) {
            Some(buf) => bufs.push_reserved(buf),
            None => unreachable!(),
        }
    }
    Block::join(bufs);
}

// Gives up the superblock whose slots end at `end`: a slot of it is out.
fn give_up(closed: &mut Ended, end: u32, carve: Carve)
    requires range { (carve.count ≤ end) × (end ≤ slots_len closed.old.slots) × IsTakenFrom (slots_filled closed.old.slots) (slots_len closed.old.slots) end }
    ensures taken { IsTakenFrom (slots_filled closed.new.slots) (slots_len closed.new.slots) (end - carve.count) }
    ensures same { (slots_items closed.new.slots ≡ slots_items closed.old.slots) × (slots_len closed.new.slots ≡ slots_len closed.old.slots) × (closed.new.words ≡ closed.old.words) }
{
    let Carve {
        count,
        class: _,
        place: _,
        bufs,
    } = carve;
    for taken in 0..count {
        if let Some(buf) = take_at(closed, end - taken - 1) {
            buf.lose();
        }
    }
    bufs.destroy_empty();
}

// Joins each superblock of which no slot is out, and gives up the others.
fn settle(mut closed: Ended, mut carves: Vec<Carve>, slots: u32)
    requires full { IsFull closed.words × IsFull closed.slots × (slots_len closed.words ≡ slots) × (slots_len closed.slots ≡ slots) }
    requires home { IsHome (slots_items closed.words) (slots_items closed.slots) carves.items }
    requires wide { total places carves.items ≡ slots }
{
    let mut end = slots;
    while let Some(carve) = carves.pop() {
        let first = end - carve.count;
        if all_free(&closed, first, end) {
            join_block(&mut closed, end, carve);
        } else {
            give_up(&mut closed, end, carve);
        }
        end = first;
    }
    carves.destroy_empty();
    closed.free();
}

impl Heap {
    /// Takes all passes of the heap, each once, and counts the slots in the state in which they are together: no other
    /// thread can change an owner after it. What they claimed and did not end is what an application still owns, and what
    /// they lent and did not get back is what a device still has.
    ///
    /// Not promised: which memory is given back. The buffers of a superblock with a slot out are given up.
    pub fn close(self, passes: Vec<HeapPass>) -> HeapEnd
        requires { (length passes.items ≡ self.shape.passes) × All (λ p. p.heap ≡ self) passes.items }
        ensures words { CountsWords self.shape passes.items result.free result.app result.lent result.dev }
        ensures claims { sum_by claims passes.items ≡ sum_by ends passes.items + (result.app + result.lent) }
        ensures loans { sum_by loans passes.items ≡ sum_by returns passes.items + (result.lent + result.dev) }
        ensures all { result.free + result.app + result.lent + result.dev ≡ slots self.shape }
    {
        let Heap { table, key } = self;
        let Key {
            counts,
            passes: _,
            carves,
        } = key;
        let slots = counts.small + counts.page + counts.large;
        let seat = gather(&table.shared, passes);
        let closed = table.close_with(seat);
        let end = count(&closed, slots);
        settle(closed, carves, slots);
        end
    }
}

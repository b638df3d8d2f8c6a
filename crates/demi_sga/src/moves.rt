//! The calls of a heap, segment by segment in order.
ghost use Rattle.std.specs.Prelude.{◌≡◌, ℕ, ◌+◌, ◌-◌, ◌<◌, ◌≤◌, ◌↔◌, [], ◌∷◌, ◌++◌, length, take, drop, IfOk, IfErr, IsTrue};
ghost use Rattle.demi_buf.specs.Bufs.{size_of};
ghost use Rattle.demi_heap.specs.Rule.{end_of, first_of};
ghost use Rattle.demi_heap.specs.Seen.{SawOwned, looked_as};
ghost use Rattle.demi_sga.specs.Arrays.{AreOf, Claimed, FirstHeld, HeldAt, SameSlots, bad_size, class_for, ended_by, loaned_by, returned_by, zeroed};
ghost use Rattle.demi_sga.specs.Rows.{items};

use crate::app::AppSga;
use crate::dev::DevSga;
use crate::lent::{LentSga, StillHeld};
use crate::row::Row;
use demi_buf::{Class, LARGE_BYTES, PAGE_BYTES, SMALL_BYTES};
use demi_heap::{AppBuf, DevBuf, Heap, HeapPass, Lent, NoSlot};

fn lend_row(heap: &Heap, pass: &mut HeapPass, row: Row<AppBuf>) -> (Row<Lent>, Row<DevBuf>)
    requires { (pass.old.heap ≡ heap.now) × AreOf heap.now (items row) × (length (items row) ≤ 8) }
    ensures pass { pass.new ≡ loaned_by pass.old (length (items row)) }
    ensures rows { (items result.0 ≡ items row) × (items result.1 ≡ items row) }
{
    if row.len() == 0 {
        row.end();
        return (Row::Empty, Row::Empty);
    }
    let (first, rest) = row.pop();
    let (half, dev) = heap.lend(pass, first);
    let (halves, devs) = lend_row(heap, pass, rest);
    (halves.push(half), devs.push(dev))
}

/// Halves of all segments, in order.
pub fn lend(heap: &Heap, pass: &mut HeapPass, sga: AppSga) -> (LentSga, DevSga)
    requires { (pass.old.heap ≡ heap.now) × AreOf heap.now sga }
    ensures pass { pass.new ≡ loaned_by pass.old (length sga) }
    ensures lent { result.0 ≡ record { segments = sga; back = 0 } }
    ensures device { result.1 ≡ sga }
{
    let len = sga.len();
    let (rest, devs) = lend_row(heap, pass, sga.into_row());
    (
        LentSga {
            back: Row::Empty,
            rest,
            len,
        },
        DevSga { row: devs },
    )
}

fn free_row(heap: &Heap, pass: &mut HeapPass, row: Row<AppBuf>)
    requires { (pass.old.heap ≡ heap.now) × AreOf heap.now (items row) }
    ensures { pass.new ≡ ended_by pass.old (length (items row)) }
{
    if row.len() == 0 {
        row.end();
        return;
    }
    let (first, rest) = row.pop();
    heap.free_app(pass, first);
    free_row(heap, pass, rest);
}

/// Frees each segment.
pub fn free_app(heap: &Heap, pass: &mut HeapPass, sga: AppSga)
    requires { (pass.old.heap ≡ heap.now) × AreOf heap.now sga }
    ensures { pass.new ≡ ended_by pass.old (length sga) }
{
    free_row(heap, pass, sga.into_row());
}

fn release_row(heap: &Heap, pass: &mut HeapPass, row: Row<DevBuf>)
    requires { (pass.old.heap ≡ heap.now) × AreOf heap.now (items row) }
    ensures { pass.new ≡ returned_by pass.old (length (items row)) }
{
    if row.len() == 0 {
        row.end();
        return;
    }
    let (first, rest) = row.pop();
    heap.release(pass, first);
    release_row(heap, pass, rest);
}

/// Ends the device half of each segment.
pub fn release(heap: &Heap, pass: &mut HeapPass, sga: DevSga)
    requires { (pass.old.heap ≡ heap.now) × AreOf heap.now sga }
    ensures { pass.new ≡ returned_by pass.old (length sga) }
{
    let DevSga { row } = sga;
    release_row(heap, pass, row);
}

fn let_row_go(heap: &Heap, pass: &mut HeapPass, row: Row<Lent>)
    requires { (pass.old.heap ≡ heap.now) × AreOf heap.now (items row) }
    ensures { pass.new ≡ ended_by pass.old (length (items row)) }
{
    if row.len() == 0 {
        row.end();
        return;
    }
    let (first, rest) = row.pop();
    heap.free_lent(pass, first);
    let_row_go(heap, pass, rest);
}

/// Ends the application half of each segment, also while the device has its half.
pub fn free_lent(heap: &Heap, pass: &mut HeapPass, sga: LentSga)
    requires { (pass.old.heap ≡ heap.now) × AreOf heap.now sga.segments }
    ensures { pass.new ≡ ended_by pass.old (length sga.segments) }
{
    let LentSga { back, rest, len: _ } = sga;
    free_row(heap, pass, back);
    let_row_go(heap, pass, rest);
}

// Takes the front segments back, up to the first that the device still has.
fn reclaim_row(heap: &Heap, pass: &mut HeapPass, row: Row<Lent>) -> (Row<AppBuf>, Row<Lent>)
    requires { (pass.old.heap ≡ heap.now) × AreOf heap.now (items row) × (length (items row) ≤ 8) }
    ensures pass { pass.new ≡ pass.old }
    ensures back { items result.0 ≡ take (length (items result.0)) (items row) }
    ensures rest { FirstHeld (drop (length (items result.0)) (items row)) (items result.1) }
{
    if row.len() == 0 {
        row.end();
        return (Row::Empty, Row::Empty);
    }
    let (first, rest) = row.pop();
    match heap.reclaim(pass, first) {
        Ok(buf) => {
            let (back, left) = reclaim_row(heap, pass, rest);
            (back.push(buf), left)
        }
        Err(demi_heap::StillHeld(half)) => (Row::Empty, rest.push(half)),
    }
}

/// Takes the segments back in order, with the bytes that were lent, up to the first that the device still has. `StillHeld`
/// only where a look of this call found the device half of that segment, as its half says; a second call goes on there.
pub fn reclaim(heap: &Heap, pass: &mut HeapPass, half: LentSga) -> Result<AppSga, StillHeld>
    requires { (pass.old.heap ≡ heap.now) × AreOf heap.now half.segments }
    ensures pass { pass.new ≡ pass.old }
    ensures ok { IfOk result (λ s. s ≡ half.segments) }
    ensures err { IfErr result (λ e. (half.back ≤ e.0.back) × (e.0.back < length half.segments) × HeldAt e.0.back half.segments e.0.segments) }
    ensures heap { IfErr result (λ e. AreOf heap.now e.0.segments) }
{
    let LentSga { back, rest, len } = half;
    let (more, left) = reclaim_row(heap, pass, rest);
    let back = back.append(more);
    if left.len() == 0 {
        left.end();
        Ok(AppSga::of_row(back))
    } else {
        Err(StillHeld(LentSga {
            back,
            rest: left,
            len,
        }))
    }
}

fn rejoin_row(heap: &Heap, pass: &mut HeapPass, row: Row<Lent>, devs: Row<DevBuf>) -> Row<AppBuf>
    requires heap { (pass.old.heap ≡ heap.now) × AreOf heap.now (items row) × AreOf heap.now (items devs) × (length (items devs) ≤ 8) }
    requires slots { SameSlots (items row) (items devs) }
    ensures pass { pass.new ≡ returned_by pass.old (length (items devs)) }
    ensures row { items result ≡ items devs }
{
    if row.len() == 0 {
        row.end();
        devs.end();
        return Row::Empty;
    }
    let (half, halves) = row.pop();
    let (dev, devs) = devs.pop();
    let buf = heap.rejoin(pass, half, dev);
    rejoin_row(heap, pass, halves, devs).push(buf)
}

/// Takes the segments back with both of their halves, with the bytes that were lent.
/// Where segments were taken back before, their device halves end.
pub fn rejoin(heap: &Heap, pass: &mut HeapPass, half: LentSga, dev: DevSga) -> AppSga
    requires heap { (pass.old.heap ≡ heap.now) × AreOf heap.now half.segments × AreOf heap.now dev }
    requires slots { SameSlots half.segments dev }
    ensures pass { pass.new ≡ returned_by pass.old (length dev) }
    ensures array { result ≡ take half.back half.segments ++ drop half.back dev }
{
    let LentSga { back, rest, len: _ } = half;
    let DevSga { row } = dev;
    let (ended, devs) = row.split(back.len());
    release_row(heap, pass, ended);
    let joined = rejoin_row(heap, pass, rest, devs);
    AppSga::of_row(back.append(joined))
}

/// Why there is no new array.
#[derive(Clone, Copy, PartialEq, Eq, Debug)]
pub enum SgaRefusal {
    /// No segment holds so many bytes, or they are none.
    BadSize,
    /// Each slot of the class had an owner, as the pass says.
    NoSlot,
}

// The least class that holds so many bytes.
fn class_of(n: u32) -> Class
    requires { n ≤ LARGE_BYTES }
    ensures class { result ≡ class_for n }
    ensures size { n ≤ size_of result }
{
    if n <= SMALL_BYTES {
        Class::Small
    } else if n <= PAGE_BYTES {
        Class::Page
    } else {
        Class::Large
    }
}

/// One segment of the least class that holds `n` bytes, all 0. `BadSize` exactly where `n` is 0 or above `LARGE_BYTES`, and
/// `NoSlot` only where each slot of that class had an owner at a step of its own in this call, as the pass then says.
pub fn sgaalloc(heap: &Heap, pass: &mut HeapPass, n: u32) -> Result<AppSga, SgaRefusal>
    requires { pass.old.heap ≡ heap.now }
    ensures size { IsTrue (bad_size n) ↔ (result ≡ Err SgaRefusal.BadSize) }
    ensures bad { IsTrue (bad_size n) → pass.new ≡ pass.old }
    ensures ok { IfOk result (λ s. (slot : ℕ) × (s ≡ zeroed heap.now (class_for n) slot n ∷ []) × Claimed heap.now (class_for n) pass.old pass.new slot) }
    ensures none { result ≡ Err SgaRefusal.NoSlot → SawOwned pass.old pass.new (first_of heap.now.shape (class_for n)) (end_of heap.now.shape (class_for n)) }
    ensures same { result ≡ Err SgaRefusal.NoSlot → pass.new ≡ looked_as pass.old pass.new }
    ensures clock { pass.old.clock ≤ pass.new.clock }
{
    if n == 0 || n > LARGE_BYTES {
        return Err(SgaRefusal::BadSize);
    }
    match heap.claim(pass, class_of(n)) {
        Ok(mut buf) => {
            buf.set_len(n);
            Ok(AppSga::of(buf))
        }
        Err(NoSlot) => Err(SgaRefusal::NoSlot),
    }
}

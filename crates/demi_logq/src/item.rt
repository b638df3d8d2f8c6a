//! An entry of a log, read into segments of a heap.
ghost use Rattle.std.specs.Prelude.{◌≡◌, ◌+◌, ◌-◌, ◌<◌, ◌≤◌, ℕ, List, [], length, take, drop, get_or, false, ◌++◌, ◌∷◌, IfSome, IfOk, IfErr, OnOk};
ghost use Rattle.demi_core.specs.Outside.{HasCause};
ghost use Rattle.demi_logq.specs.Items.{Accounts, NoneHolds, Took};
ghost use Rattle.demi_logq.specs.Logged.{Holds};

use crate::Log;
use demi_buf::{Class, LARGE_BYTES, PAGE_BYTES, SMALL_BYTES};
use demi_core::{Disk, Failed};
use demi_heap::{AppBuf, Heap, HeapPass, NoSlot};
use demi_sga::AppSga;

/// What came of reading an entry.
pub(crate) enum Taken {
    Item(AppSga),
    NoSlot,
    Fault,
}

// Claims a slot of the least class that holds so many bytes.
fn claim_for(heap: &Heap, pass: &mut HeapPass, size: u32) -> Result<AppBuf, NoSlot>
    requires heap { pass.old.heap ≡ heap.now }
    requires size { size ≤ 65536 }
    ensures buf { IfOk result (λ a. (a.heap ≡ heap.now) × (length a.bytes ≡ size)) }
    ensures ok { IfOk result (λ _. Accounts pass.old pass.new 0 1) }
    ensures none { IfErr result (λ _. Accounts pass.old pass.new 0 0 × NoneHolds pass.old pass.new size) }
{
    let class = if size <= SMALL_BYTES {
        Class::Small
    } else if size <= PAGE_BYTES {
        Class::Page
    } else {
        Class::Large
    };
    match heap.claim(pass, class) {
        Ok(mut buf) => {
            buf.set_len(size);
            Ok(buf)
        }
        Err(NoSlot) => Err(NoSlot),
    }
}

// Reads a part of an entry over the bytes of a segment.
fn read_into<D: Disk>(log: &mut Log<D>, i: u64, from: usize, buf: &mut AppBuf) -> Result<(), Failed>
    requires lost { log.old.lost ≡ false }
    requires there { i < length log.old.ends }
    requires inside { (payloads : List (List ℕ)) → Holds (D.bytes log.old.disk) log.old.ends payloads → from + length buf.old.bytes ≤ length (get_or payloads i []) }
    ensures buf { (buf.new.heap ≡ buf.old.heap) × (length buf.new.bytes ≡ length buf.old.bytes) }
    ensures bytes { OnOk result ((payloads : List (List ℕ)) → Holds (D.bytes log.old.disk) log.old.ends payloads → IfSome (D.bytes log.old.disk) (λ _. buf.new.bytes ≡ take (length buf.old.bytes) (drop from (get_or payloads i [])))) }
    ensures same { log.new ≡ record log.old { disk = log.new.disk } }
    ensures same_bytes { D.bytes log.new.disk ≡ D.bytes log.old.disk }
    ensures same_held { D.held log.new.disk ≡ D.held log.old.disk }
    ensures calls { D.looks log.old.disk log.new.disk }
    ensures cause { HasCause (D.faults log.old.disk) (D.faults log.new.disk) result }
{
    match log.part(i, from, buf.bytes_mut()) {
        Ok(_) => Ok(()),
        Err(failed) => Err(failed),
    }
}

// Reads the entry into one segment, where it has at most 65,536 bytes.
fn take_one<D: Disk>(
    log: &mut Log<D>,
    heap: &Heap,
    pass: &mut HeapPass,
    i: u64,
    size: usize,
) -> Taken
    requires lost { log.old.lost ≡ false }
    requires there { i < length log.old.ends }
    requires heap { pass.old.heap ≡ heap.now }
    requires few { size ≤ 65536 }
    requires size { (payloads : List (List ℕ)) → Holds (D.bytes log.old.disk) log.old.ends payloads → size ≡ length (get_or payloads i []) }
    ensures took { Took D.bytes D.faults heap.now i log.old log.new pass.old pass.new result }
    ensures same { log.new ≡ record log.old { disk = log.new.disk } }
    ensures same_bytes { D.bytes log.new.disk ≡ D.bytes log.old.disk }
    ensures same_held { D.held log.new.disk ≡ D.held log.old.disk }
    ensures calls { D.looks log.old.disk log.new.disk }
    ensures later { D.faults log.old.disk ≤ D.faults log.new.disk }
{
    let Ok(mut buf) = claim_for(heap, pass, size as u32) else {
        return Taken::NoSlot;
    };
    match read_into(log, i, 0, &mut buf) {
        Ok(()) => Taken::Item(AppSga::of(buf)),
        Err(_) => {
            heap.free_app(pass, buf);
            Taken::Fault
        }
    }
}

// Reads both parts of the entry.
fn read_both<D: Disk>(
    log: &mut Log<D>,
    i: u64,
    first: &mut AppBuf,
    rest: &mut AppBuf,
) -> Result<(), Failed>
    requires lost { log.old.lost ≡ false }
    requires there { i < length log.old.ends }
    requires first { length first.old.bytes ≡ 65536 }
    requires size { (payloads : List (List ℕ)) → Holds (D.bytes log.old.disk) log.old.ends payloads → 65536 + length rest.old.bytes ≡ length (get_or payloads i []) }
    ensures first { (first.new.heap ≡ first.old.heap) × (length first.new.bytes ≡ 65536) }
    ensures rest { (rest.new.heap ≡ rest.old.heap) × (length rest.new.bytes ≡ length rest.old.bytes) }
    ensures bytes { OnOk result ((payloads : List (List ℕ)) → Holds (D.bytes log.old.disk) log.old.ends payloads → IfSome (D.bytes log.old.disk) (λ _. first.new.bytes ++ rest.new.bytes ≡ get_or payloads i [])) }
    ensures same { log.new ≡ record log.old { disk = log.new.disk } }
    ensures same_bytes { D.bytes log.new.disk ≡ D.bytes log.old.disk }
    ensures same_held { D.held log.new.disk ≡ D.held log.old.disk }
    ensures calls { D.looks log.old.disk log.new.disk }
    ensures cause { HasCause (D.faults log.old.disk) (D.faults log.new.disk) result }
{
    match read_into(log, i, 0, first) {
        Ok(()) => read_into(log, i, LARGE_BYTES as usize, rest),
        Err(failed) => Err(failed),
    }
}

// Both segments as one array.
fn joined(first: AppBuf, rest: AppBuf) -> AppSga
    ensures { result ≡ first ∷ rest ∷ [] }
{
    match AppSga::join(AppSga::of(first), AppSga::of(rest)) {
        Ok(sga) => sga,
        Err((_first, _rest)) => unreachable!(),
    }
}

// Reads the entry into two segments, where it has more than 65,536 bytes.
fn take_two<D: Disk>(
    log: &mut Log<D>,
    heap: &Heap,
    pass: &mut HeapPass,
    i: u64,
    size: usize,
) -> Taken
    requires lost { log.old.lost ≡ false }
    requires there { i < length log.old.ends }
    requires heap { pass.old.heap ≡ heap.now }
    requires many { (65536 < size) × (size ≤ 65798) }
    requires size { (payloads : List (List ℕ)) → Holds (D.bytes log.old.disk) log.old.ends payloads → size ≡ length (get_or payloads i []) }
    ensures took { Took D.bytes D.faults heap.now i log.old log.new pass.old pass.new result }
    ensures same { log.new ≡ record log.old { disk = log.new.disk } }
    ensures same_bytes { D.bytes log.new.disk ≡ D.bytes log.old.disk }
    ensures same_held { D.held log.new.disk ≡ D.held log.old.disk }
    ensures calls { D.looks log.old.disk log.new.disk }
    ensures later { D.faults log.old.disk ≤ D.faults log.new.disk }
{
    let Ok(mut first) = claim_for(heap, pass, LARGE_BYTES) else {
        return Taken::NoSlot;
    };
    let Ok(mut rest) = claim_for(heap, pass, size as u32 - LARGE_BYTES) else {
        heap.free_app(pass, first);
        return Taken::NoSlot;
    };
    match read_both(log, i, &mut first, &mut rest) {
        Ok(()) => Taken::Item(joined(first, rest)),
        Err(_) => {
            heap.free_app(pass, first);
            heap.free_app(pass, rest);
            Taken::Fault
        }
    }
}

/// Reads an entry into an array of the heap.
pub(crate) fn take_item<D: Disk>(
    log: &mut Log<D>,
    heap: &Heap,
    pass: &mut HeapPass,
    i: u64,
) -> Taken
    requires lost { log.old.lost ≡ false }
    requires there { i < length log.old.ends }
    requires heap { pass.old.heap ≡ heap.now }
    ensures took { Took D.bytes D.faults heap.now i log.old log.new pass.old pass.new result }
    ensures same { log.new ≡ record log.old { disk = log.new.disk } }
    ensures same_bytes { D.bytes log.new.disk ≡ D.bytes log.old.disk }
    ensures same_held { D.held log.new.disk ≡ D.held log.old.disk }
    ensures calls { D.looks log.old.disk log.new.disk }
    ensures later { D.faults log.old.disk ≤ D.faults log.new.disk }
{
    let (_, size) = log.span(i);
    if size > LARGE_BYTES as usize {
        take_two(log, heap, pass, i, size)
    } else {
        take_one(log, heap, pass, i, size)
    }
}

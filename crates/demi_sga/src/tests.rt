ghost use Rattle.std.specs.Prelude.{◌≡◌, ◌+◌, ◌≤◌, ◌++◌, length};
ghost use Rattle.demi_sga.specs.Arrays.{AreOf};

use crate::{
    AppSga, DevSga, LentSga, SgaRefusal, StillHeld, free_app, lend, reclaim, release, sgaalloc,
};
use demi_buf::Class;
use demi_heap::{Counts, Heap, HeapPass, NoSlot};
use std::alloc::Global;
use std::process::Abort;
use std::test::Fail;

mod contents;

// A heap with so many small slots, one page and one large slot.
fn open<R: Abort>(rt: &R, alloc: Global, small: u32) -> (Heap, HeapPass)
    requires { small ≤ 9 }
    ensures { (result.1.heap ≡ result.0) × (result.0.shape.passes ≡ 1) }
{
    let counts = Counts {
        small,
        page: 1,
        large: 1,
    };
    let Ok((heap, mut passes)) = Heap::make(alloc, counts, 1) else {
        panic!(rt; "no memory")
    };
    (heap, passes.pop().unwrap())
}

// Allocates an array that is never freed. Its length, or why there is none.
fn keep(heap: &Heap, pass: &mut HeapPass, n: u32) -> Result<u32, SgaRefusal>
    requires { pass.old.heap ≡ heap.now }
    ensures { pass.new.heap ≡ heap.now }
{
    let sga = match sgaalloc(heap, pass, n) {
        Ok(sga) => sga,
        Err(e) => return Err(e),
    };
    let zeros = sga.segment(0).iter().all(|b| *b == 0);
    let len = sga.len();
    sga.lose();
    Ok(if zeros { len } else { 0 })
}

// An array of one segment of one byte.
fn byte<R: Abort>(rt: &R, heap: &Heap, pass: &mut HeapPass, value: u8) -> AppSga
    requires { pass.old.heap ≡ heap.now }
    ensures { AreOf heap.now result × (pass.new.heap ≡ heap.now) }
{
    match heap.claim(pass, Class::Small) {
        Ok(mut buf) => {
            buf.set_len(1);
            fill(buf.bytes_mut(), value);
            AppSga::of(buf)
        }
        Err(NoSlot) => panic!(rt; "no slot"),
    }
}

fn fill(bytes: &mut [u8], value: u8) {
    for b in bytes.iter_mut() {
        *b = value;
    }
}

fn joined<R: Abort>(rt: &R, first: AppSga, second: AppSga) -> AppSga
    ensures { (result ≡ first ++ second) × (length first + length second ≤ 8) }
{
    match AppSga::join(first, second) {
        Ok(sga) => sga,
        Err((_first, _second)) => panic!(rt; "too many segments"),
    }
}

#[test]
fn sizes_choose_the_class_or_are_refused(rt: HostRuntime) -> Result<(), Fail> {
    let (heap, mut pass) = open(&rt, rt.alloc(), 9);
    let none = keep(&heap, &mut pass, 0);
    let above = keep(&heap, &mut pass, 65537);
    let small = keep(&heap, &mut pass, 256);
    let page = keep(&heap, &mut pass, 257);
    let large = keep(&heap, &mut pass, 65536);
    let no_page = keep(&heap, &mut pass, 4096);
    let no_large = keep(&heap, &mut pass, 4097);
    assert_eq!(rt;
        (none, above),
        (Err(SgaRefusal::BadSize), Err(SgaRefusal::BadSize))
    );
    assert_eq!(rt; (small, page, large), (Ok(256), Ok(257), Ok(65536)));
    assert_eq!(rt;
        (no_page, no_large),
        (Err(SgaRefusal::NoSlot), Err(SgaRefusal::NoSlot))
    );
    assert_eq!(rt; free_at_end(&rt, rt.alloc(), heap, pass), 8);
    Ok(())
}

// Both as one array.
fn pair<R: Abort>(rt: &R, heap: &Heap, first: AppSga, second: AppSga) -> AppSga
    requires { AreOf heap.now first × AreOf heap.now second }
    ensures { AreOf heap.now result }
{
    let _ = heap;
    joined(rt, first, second)
}

// The three as one array.
fn three<R: Abort>(rt: &R, heap: &Heap, first: AppSga, second: AppSga, third: AppSga) -> AppSga
    requires { AreOf heap.now first × AreOf heap.now second × AreOf heap.now third }
    ensures { AreOf heap.now result }
{
    let front = pair(rt, heap, first, second);
    pair(rt, heap, front, third)
}

// The first segment and the others.
fn split_dev<R: Abort>(rt: &R, heap: &Heap, dev: DevSga) -> (DevSga, DevSga)
    requires { AreOf heap.now dev }
    ensures { AreOf heap.now result.0 × AreOf heap.now result.1 }
{
    let _ = heap;
    if dev.segments() < 2 {
        panic!(rt; "one segment")
    }
    dev.split(1)
}

// Closes the heap: how many slots were free.
fn free_at_end<R: Abort>(rt: &R, alloc: Global, heap: Heap, pass: HeapPass) -> u32
    requires { (pass.heap ≡ heap) × (heap.shape.passes ≡ 1) }
{
    let mut passes = Vec::new(alloc);
    let Ok(()) = passes.push(pass) else {
        panic!(rt; "no memory")
    };
    heap.close(passes).free
}

// Releases the first and the last of three segments.
fn release_outer<R: Abort>(rt: &R, heap: &Heap, pass: &mut HeapPass, dev: DevSga) -> DevSga
    requires { (pass.old.heap ≡ heap.now) × AreOf heap.now dev }
    ensures { AreOf heap.now result × (pass.new.heap ≡ heap.now) }
{
    let (front, rest) = split_dev(rt, heap, dev);
    release(heap, pass, front);
    let (middle, last) = split_dev(rt, heap, rest);
    release(heap, pass, last);
    middle
}

// The half of an array that the device still has.
fn held<R: Abort>(rt: &R, heap: &Heap, pass: &mut HeapPass, half: LentSga) -> LentSga
    requires { (pass.old.heap ≡ heap.now) × AreOf heap.now half.segments }
    ensures { AreOf heap.now result.segments × (pass.new.heap ≡ heap.now) }
{
    match reclaim(heap, pass, half) {
        Err(StillHeld(half)) => half,
        Ok(_sga) => panic!(rt; "a segment is held"),
    }
}

// The array that came back.
fn whole<R: Abort>(rt: &R, heap: &Heap, pass: &mut HeapPass, half: LentSga) -> AppSga
    requires { (pass.old.heap ≡ heap.now) × AreOf heap.now half.segments }
    ensures { AreOf heap.now result × (pass.new.heap ≡ heap.now) }
{
    match reclaim(heap, pass, half) {
        Ok(sga) => sga,
        Err(_held) => panic!(rt; "all are released"),
    }
}

#[test]
fn a_reclaim_goes_on_where_it_stopped(rt: HostRuntime) -> Result<(), Fail> {
    let (heap, mut pass) = open(&rt, rt.alloc(), 9);
    let first = byte(&rt, &heap, &mut pass, 0x61);
    let second = byte(&rt, &heap, &mut pass, 0x62);
    let third = byte(&rt, &heap, &mut pass, 0x63);
    let sga = three(&rt, &heap, first, second, third);
    let (half, dev) = lend(&heap, &mut pass, sga);
    let middle = release_outer(&rt, &heap, &mut pass, dev);
    let half = held(&rt, &heap, &mut pass, half);
    assert_eq!(rt; (half.segments(), half.len()), (3, 3));
    release(&heap, &mut pass, middle);
    let sga = whole(&rt, &heap, &mut pass, half);
    assert_eq!(rt; sga.segments(), 3);
    assert_eq!(rt;
        (sga.segment(0), sga.segment(1)),
        ([0x61].as_slice(), [0x62].as_slice())
    );
    assert_eq!(rt; sga.segment(2), [0x63].as_slice());
    free_app(&heap, &mut pass, sga);
    assert_eq!(rt; free_at_end(&rt, rt.alloc(), heap, pass), 11);
    Ok(())
}

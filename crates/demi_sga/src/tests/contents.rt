//! What the bytes of an array are, and when its slots are free.
ghost use Rattle.std.specs.Prelude.{◌≡◌, ◌≤◌};
ghost use Rattle.demi_sga.specs.Arrays.{AreOf};

use super::{byte, fill, free_at_end, open, pair, three};
use crate::{AppSga, DevSga, SgaRefusal, free_app, free_lent, lend, rejoin, release, sgaalloc};
use demi_heap::{Heap, HeapPass};
use std::process::Abort;
use std::test::Fail;

// A new array of so many bytes.
fn allocated<R: Abort>(rt: &R, heap: &Heap, pass: &mut HeapPass, n: u32) -> AppSga
    requires { pass.old.heap ≡ heap.now }
    ensures { AreOf heap.now result × (pass.new.heap ≡ heap.now) }
{
    match sgaalloc(heap, pass, n) {
        Ok(sga) => sga,
        Err(_) => panic!(rt; "no slot"),
    }
}

// The array with the bytes of its segment `i` all of this value.
fn filled<R: Abort>(rt: &R, heap: &Heap, sga: AppSga, i: u32, value: u8) -> AppSga
    requires { AreOf heap.now sga }
    ensures { AreOf heap.now result }
{
    let _ = heap;
    let mut sga = sga;
    if i >= sga.segments() {
        panic!(rt; "no such segment")
    }
    fill(sga.segment_mut(i), value);
    sga
}

// Whether the segment `i` has these bytes.
fn has<R: Abort>(rt: &R, sga: &AppSga, i: u32, bytes: &[u8]) -> bool {
    if i >= sga.segments() {
        panic!(rt; "no such segment")
    }
    sga.segment(i) == bytes
}

#[test]
fn a_new_array_is_zero_though_its_slot_held_bytes(rt: HostRuntime) -> Result<(), Fail> {
    let (heap, mut pass) = open(&rt, rt.alloc(), 1);
    let old = allocated(&rt, &heap, &mut pass, 4);
    let old = filled(&rt, &heap, old, 0, 0x78);
    let was_written = has(&rt, &old, 0, &[0x78; 4]);
    free_app(&heap, &mut pass, old);
    let new = allocated(&rt, &heap, &mut pass, 5);
    let is_zero = has(&rt, &new, 0, &[0; 5]);
    free_app(&heap, &mut pass, new);
    assert_eq!(rt; (was_written, is_zero), (true, true));
    assert_eq!(rt; free_at_end(&rt, rt.alloc(), heap, pass), 3);
    Ok(())
}

// Three segments of one byte each: 0x61, 0x62 and 0x63.
fn abc<R: Abort>(rt: &R, heap: &Heap, pass: &mut HeapPass) -> AppSga
    requires { pass.old.heap ≡ heap.now }
    ensures { AreOf heap.now result × (pass.new.heap ≡ heap.now) }
{
    let first = byte(rt, heap, pass, 0x61);
    let second = byte(rt, heap, pass, 0x62);
    let third = byte(rt, heap, pass, 0x63);
    three(rt, heap, first, second, third)
}

// The array with the length of its segment `i` set to at most 256 bytes.
fn resized<R: Abort>(rt: &R, heap: &Heap, sga: AppSga, i: u32, n: u32) -> AppSga
    requires { AreOf heap.now sga × (n ≤ 256) }
    ensures { AreOf heap.now result }
{
    let _ = heap;
    let mut sga = sga;
    if i >= sga.segments() {
        panic!(rt; "no such segment")
    }
    sga.set_len(i, n);
    sga
}

#[test]
fn a_segment_is_written_and_resized_in_its_place(rt: HostRuntime) -> Result<(), Fail> {
    let (heap, mut pass) = open(&rt, rt.alloc(), 9);
    let sga = abc(&rt, &heap, &mut pass);
    let sga = filled(&rt, &heap, sga, 2, 0x79);
    let sga = filled(&rt, &heap, sga, 0, 0x78);
    let sga = resized(&rt, &heap, sga, 1, 3);
    let front = has(&rt, &sga, 0, &[0x78]);
    let middle = has(&rt, &sga, 1, &[0x62, 0, 0]);
    let back = has(&rt, &sga, 2, &[0x79]);
    let len = sga.len();
    let sga = resized(&rt, &heap, sga, 1, 0);
    let shorter = sga.len();
    free_app(&heap, &mut pass, sga);
    assert_eq!(rt; (front, middle, back), (true, true, true));
    assert_eq!(rt; (len, shorter), (5, 2));
    assert_eq!(rt; free_at_end(&rt, rt.alloc(), heap, pass), 11);
    Ok(())
}

// Whether one segment more than eight is refused, and both arrays come back.
fn ninth_is_refused(heap: &Heap, pass: &mut HeapPass, eight: AppSga, one: AppSga) -> bool
    requires { (pass.old.heap ≡ heap.now) × AreOf heap.now eight × AreOf heap.now one }
    ensures { pass.new.heap ≡ heap.now }
{
    match AppSga::join(eight, one) {
        Ok(nine) => {
            nine.lose();
            false
        }
        Err((eight, one)) => {
            let counts = (eight.segments(), one.segments());
            free_app(heap, pass, eight);
            free_app(heap, pass, one);
            counts == (8, 1)
        }
    }
}

#[test]
fn a_ninth_segment_is_refused(rt: HostRuntime) -> Result<(), Fail> {
    let (heap, mut pass) = open(&rt, rt.alloc(), 9);
    let front = abc(&rt, &heap, &mut pass);
    let middle = abc(&rt, &heap, &mut pass);
    let seventh = byte(&rt, &heap, &mut pass, 0x67);
    let eighth = byte(&rt, &heap, &mut pass, 0x68);
    let back = pair(&rt, &heap, seventh, eighth);
    let eight = three(&rt, &heap, front, middle, back);
    let ninth = byte(&rt, &heap, &mut pass, 0x69);
    let refused = ninth_is_refused(&heap, &mut pass, eight, ninth);
    assert!(rt; refused);
    assert_eq!(rt; free_at_end(&rt, rt.alloc(), heap, pass), 11);
    Ok(())
}

#[test]
fn a_rejoined_array_has_its_bytes(rt: HostRuntime) -> Result<(), Fail> {
    let (heap, mut pass) = open(&rt, rt.alloc(), 9);
    let sga = abc(&rt, &heap, &mut pass);
    let (half, dev) = lend(&heap, &mut pass, sga);
    let counts = (half.segments(), half.len(), dev.segments(), dev.len());
    let sga = rejoin(&heap, &mut pass, half, dev);
    let front = has(&rt, &sga, 0, &[0x61]);
    let middle = has(&rt, &sga, 1, &[0x62]);
    let back = has(&rt, &sga, 2, &[0x63]);
    free_app(&heap, &mut pass, sga);
    assert_eq!(rt; counts, (3, 3, 3, 3));
    assert_eq!(rt; (front, middle, back), (true, true, true));
    assert_eq!(rt; free_at_end(&rt, rt.alloc(), heap, pass), 11);
    Ok(())
}

// Whether the part from `from` on, of at most `max` bytes, is this.
fn part_is<R: Abort>(rt: &R, dev: &DevSga, from: u32, max: u32, bytes: &[u8]) -> bool
    requires { 1 ≤ max }
{
    if from >= dev.len() {
        panic!(rt; "no such byte")
    }
    dev.part(from, max) == bytes
}

#[test]
fn a_part_ends_with_its_segment(rt: HostRuntime) -> Result<(), Fail> {
    let (heap, mut pass) = open(&rt, rt.alloc(), 9);
    let sga = abc(&rt, &heap, &mut pass);
    let sga = resized(&rt, &heap, sga, 0, 2);
    let sga = resized(&rt, &heap, sga, 1, 0);
    let (half, dev) = lend(&heap, &mut pass, sga);
    let whole = part_is(&rt, &dev, 0, 9, &[0x61, 0]);
    let short = part_is(&rt, &dev, 0, 1, &[0x61]);
    let end = part_is(&rt, &dev, 1, 9, &[0]);
    let past_the_empty_one = part_is(&rt, &dev, 2, 9, &[0x63]);
    release(&heap, &mut pass, dev);
    free_lent(&heap, &mut pass, half);
    assert_eq!(rt;
        (whole, short, end, past_the_empty_one),
        (true, true, true, true)
    );
    assert_eq!(rt; free_at_end(&rt, rt.alloc(), heap, pass), 11);
    Ok(())
}

// Whether an array of one byte is refused for want of a slot. One that is got is freed.
fn has_no_slot(heap: &Heap, pass: &mut HeapPass) -> bool
    requires { pass.old.heap ≡ heap.now }
    ensures { pass.new.heap ≡ heap.now }
{
    match sgaalloc(heap, pass, 1) {
        Ok(sga) => {
            free_app(heap, pass, sga);
            false
        }
        Err(refusal) => refusal == SgaRefusal::NoSlot,
    }
}

#[test]
fn an_early_free_leaves_the_slot_with_the_device(rt: HostRuntime) -> Result<(), Fail> {
    let (heap, mut pass) = open(&rt, rt.alloc(), 1);
    let sga = allocated(&rt, &heap, &mut pass, 1);
    let sga = filled(&rt, &heap, sga, 0, 0x78);
    let (half, dev) = lend(&heap, &mut pass, sga);
    free_lent(&heap, &mut pass, half);
    let is_kept = part_is(&rt, &dev, 0, 1, &[0x78]);
    let held = has_no_slot(&heap, &mut pass);
    release(&heap, &mut pass, dev);
    let free = !has_no_slot(&heap, &mut pass);
    assert_eq!(rt; (is_kept, held, free), (true, true, true));
    assert_eq!(rt; free_at_end(&rt, rt.alloc(), heap, pass), 3);
    Ok(())
}

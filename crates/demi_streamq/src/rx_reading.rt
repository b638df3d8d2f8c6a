//! One read into a page.
ghost use Rattle.std.specs.Prelude.{◌≡◌, ◌+◌, ◌≤◌, ◌^◌, false, length};
ghost use Rattle.std.specs.Io.KnownBytes.{prepend_known};
ghost use Rattle.demi_core.specs.Outside.{Rose};
ghost use Rattle.demi_streamq.specs.Receiving.{IsFrom, IsRead};
ghost use Rattle.demi_streamq.specs.RxGoing.{RxDid};
ghost use Rattle.demi_streamq.specs.RxKept.{bytes_of, IsEnd, IsFault, NoneLeft, pieces_of};

use crate::RxOut;
use demi_buf::Class;
use demi_core::Source;
use demi_heap::{Heap, HeapPass, NoSlot};

// One read of at most so many bytes, into a page of the heap, after so many bytes.
pub(crate) fn read_piece<S: Source>(
    heap: &Heap,
    pass: &mut HeapPass,
    source: &mut S,
    max: u32,
    taken: u64,
) -> RxOut
    requires some { (1 ≤ max) × (max ≤ 4096) }
    requires heap { pass.old.heap ≡ heap.now }
    ensures read { IsRead max taken result }
    ensures from { IsFrom heap.now result }
    ensures pass { pass.new ≡ record pass.old { claimed = pass.new.claimed; ended = pass.new.ended; clock = pass.new.clock; missed = pass.new.missed } }
    ensures numbers { pass.new.claimed + pass.old.ended ≡ pass.old.claimed + pass.new.ended + pieces_of result }
    ensures taken { S.taken source.new ≡ S.taken source.old + length (bytes_of result) }
    ensures left { S.left source.old ≡ prepend_known (bytes_of result) (S.left source.new) }
    ensures later { S.faults source.old ≤ S.faults source.new }
    ensures rose { IsFault result → Rose (S.faults source.old) (S.faults source.new) }
    ensures end { IsEnd result → NoneLeft (S.left source.new) }
    ensures did { RxDid S.faults S.reads false source.old pass.old result source.new pass.new }
    ensures most { 1 ≤ length (bytes_of result) → S.taken source.new ≤ 2 ^ 34 }
{
    match heap.claim(pass, Class::Page) {
        Err(NoSlot) => RxOut::NoSlot,
        Ok(mut page) => {
            page.set_len(max);
            match source.read(page.bytes_mut()) {
                Err(_) => {
                    heap.free_app(pass, page);
                    RxOut::Fault(taken)
                }
                Ok(0) => {
                    heap.free_app(pass, page);
                    RxOut::End
                }
                Ok(count) => {
                    page.set_len(count as u32);
                    RxOut::Piece(page)
                }
            }
        }
    }
}

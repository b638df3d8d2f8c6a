ghost use Rattle.std.specs.Prelude.{◌≡◌, ℕ, ◌+◌, ◌-◌, ◌*◌, ◌<◌, ◌≤◌, length, take, replicate, ◌++◌, Some, None};
ghost use Rattle.std.specs.Borrow.{Lends, Array, sem, u8};
ghost use denote.RawPtr.{block_ptr, block_of};
ghost use Rattle.demi_buf.specs.Bufs.{size_of, with_bytes, number_of, fresh, HasDeed};
ghost use Rattle.demi_buf.specs.Places.{IsRun, somes, cleared};
ghost use Rattle.demi_buf.specs.Names.{place_block};
ghost use Rattle.demi_buf.specs.contracts.buf.Buf.{the_row};

use crate::cells::{Base, Cells, Deed};
use crate::class::Class;
use std::alloc::Global;
use std::marker::Model;
use std::mem::ManuallyDrop;

/// In which memory a superblock lies. While a buffer of it is there, no other superblock lies there.
#[derive(Clone, Copy)]
pub struct Place {
    base: Base<u8>,
}

/// One buffer of a superblock. It must be spent: by `Block::join` with all others of its carve, or by `lose`.
pub struct Buf {
    base: Base<u8>,
    len: u32,
    count: u8,
    slot: u8,
    class: Class,
    deed: Option<Deed<u8, Global>>,
    cells: Cells<u8>,
}

impl Model for Buf {
    ghost use Rattle.std.specs.Prelude.{take};
    ghost use denote.RawPtr.{block_of};
    ghost use Rattle.demi_buf.specs.Bufs.{BufValue, number_of, IsRow, HasDeed};
    ghost use Rattle.demi_buf.specs.Places.{somes};

    ghost Value = { BufValue };

    ghost view = { λ b. record { block = number_of (block_of b.base.ptr) b.class; count = b.count; slot = b.slot; class = b.class; bytes = somes (take b.len b.cells.slots) } };

    ghost invariant = { λ b. IsRow b.base.ptr b.cells.at b.count b.slot b.class b.len b.cells.slots × HasDeed b.base.ptr b.count b.slot b.class b.deed };
}

impl Buf {
    // The buffer of a row of its own.
    pub(crate) fn new(
        base: Base<u8>,
        cells: Cells<u8>,
        deed: Option<Deed<u8, Global>>,
        class: Class,
        count: u32,
        slot: u32,
    ) -> Buf
        requires row { (cells.at ≡ base.ptr) × (base.ptr ≡ block_ptr (block_of base.ptr) (slot * size_of class)) × (length cells.slots ≡ size_of class) }
        requires number { (slot < count) × (count ≤ 64) }
        requires deed { HasDeed base.ptr count slot class deed }
        ensures { result ≡ fresh (number_of (block_of base.ptr) class) class count slot }
    {
        Buf {
            base,
            len: 0,
            count: count as u8,
            slot: slot as u8,
            class,
            deed,
            cells,
        }
    }

    /// Its number in its superblock, from 0.
    pub fn slot(&self) -> u32
        ensures { result ≡ self.now.slot }
    {
        self.slot as u32
    }

    /// Which of the three sizes it has.
    pub fn class(&self) -> Class
        ensures { result ≡ self.now.class }
    {
        self.class
    }

    /// Where its superblock lies, which is known by that and by the class.
    pub fn place(&self) -> Place
        ensures { number_of (place_block result) self.now.class ≡ self.now.block }
    {
        Place { base: self.base }
    }

    /// In bytes, at most the class's size.
    pub fn len(&self) -> u32
        ensures bytes { result ≡ length self.now.bytes }
        ensures fits { result ≤ size_of self.now.class }
    {
        self.len
    }

    /// The bytes that count.
    pub fn bytes(&self) -> &[u8]
        ensures { result.now ≡ self.now.bytes }
    {
        self.cells.slice(self.base, 0, self.len as usize)
    }

    /// The bytes that count, to write.
    pub fn bytes_mut(&mut self) -> &mut [u8]
        ensures* writes_back { sem 𝓛 (Lends the_row (Array u8 0) self.entry result (with_bytes self.old)) }
        ensures value { result.now ≡ self.old.bytes }
    {
        self.cells.slice_mut(self.base, 0, self.len as usize)
    }

    /// Bytes stay up to `n`, and bytes that are added are 0.
    pub fn set_len(&mut self, n: u32)
        requires { n ≤ size_of self.old.class }
        ensures { self.new ≡ record self.old { bytes = take n self.old.bytes ++ replicate (n - length self.old.bytes) 0 } }
    {
        resize(&mut self.cells, self.base, self.len as usize, n as usize);
        self.len = n;
    }

    // Its number, and that its superblock has one of that number.
    pub(crate) fn number(&self) -> u32
        ensures { (result ≡ self.now.slot) × (result < self.now.count) }
    {
        self.slot as u32
    }

    // What the first buffer of a superblock has: where its memory begins, its row, and the deed.
    pub(crate) fn into_first(self) -> (Base<u8>, Cells<u8>, Deed<u8, Global>)
        requires { self.slot ≡ 0 }
        ensures { (block : ℕ) × (self.block ≡ number_of block self.class) × (result.0.ptr ≡ block_ptr block 0) × (result.1.at ≡ result.0.ptr) × (length result.1.slots ≡ size_of self.class) × (result.2.at ≡ result.0.ptr) × (result.2.len ≡ self.count * size_of self.class) × (self.count ≤ 64) }
    {
        let Buf {
            base,
            len: _,
            count: _,
            slot: _,
            class: _,
            deed,
            cells,
        } = self;
        match deed {
            Some(deed) => (base, cells, deed),
            None => unreachable!(),
        }
    }

    // Joins the row to those of the buffers with a lower number.
    pub(crate) fn join_to(self, whole: Cells<u8>, class: Class) -> Cells<u8>
        requires { (block : ℕ) × (0 < self.slot) × (self.block ≡ number_of block class) × (whole.at ≡ block_ptr block 0) × (length whole.slots ≡ self.slot * size_of class) }
        ensures { (result.at ≡ whole.at) × (length result.slots ≡ (self.slot + 1) * size_of class) }
    {
        let _ = class;
        let Buf {
            base: _,
            len: _,
            count: _,
            slot: _,
            class: _,
            deed,
            cells,
        } = self;
        match deed {
            Some(_) => unreachable!(),
            None => whole.join(cells),
        }
    }

    /// Gives the buffer up. Its superblock is then never joined.
    pub fn lose(self) {
        let _lost = unsafe { ManuallyDrop::new_unchecked(self) };
    }
}

// Of the places, of which the first `len` hold bytes, the first `n` hold bytes then: those that are added are 0.
fn resize(cells: &mut Cells<u8>, base: Base<u8>, len: usize, n: usize)
    requires { (base.ptr ≡ cells.old.at) × IsRun cells.old.slots 0 len × (n ≤ length cells.old.slots) }
    ensures places { (cells.new.at ≡ cells.old.at) × (length cells.new.slots ≡ length cells.old.slots) }
    ensures run { IsRun cells.new.slots 0 n }
    ensures bytes { somes (take n cells.new.slots) ≡ take n (somes (take len cells.old.slots)) ++ replicate (n - length (somes (take len cells.old.slots))) 0 }
{
    if n <= len {
        return;
    }
    clear(cells, base, len, n);
}

// Writes 0 to the places from `from` on, below `to`.
fn clear(cells: &mut Cells<u8>, base: Base<u8>, from: usize, to: usize)
    requires { (base.ptr ≡ cells.old.at) × (from ≤ to) × (to ≤ length cells.old.slots) }
    ensures { (cells.new.at ≡ cells.old.at) × (cells.new.slots ≡ cleared from to cells.old.slots) }
{
    for i in from..to {
        cells.write(base, i, 0);
    }
}

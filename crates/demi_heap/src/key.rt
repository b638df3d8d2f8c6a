//! What is fixed about a heap, and the vectors that its superblocks came in.
use crate::counts::Counts;
use demi_buf::{Buf, Class, Place};
use std::marker::Model;

/// One superblock: where it lies, and the emptied vector of its carve, kept for the buffers to be joined in.
pub struct Carve {
    pub(crate) count: u32,
    pub(crate) class: Class,
    pub(crate) place: Place,
    pub(crate) bufs: Vec<Buf>,
}

impl Model for Carve {
    ghost use Rattle.std.specs.Prelude.{◌≡◌, ◌≤◌, [], vec_capacity, vec_len};
    ghost use Rattle.demi_buf.specs.Bufs.{number_of};
    ghost use Rattle.demi_buf.specs.Names.{place_block};
    ghost use Rattle.demi_heap_core.specs.declared.shape.Superblock.{Superblock};

    ghost Value = { Superblock };

    ghost view = { λ c. record { place = number_of (place_block c.place) c.class; count = c.count } };

    ghost invariant = { λ c. (c.bufs.items ≡ []) × (vec_len c.bufs ≡ 0) × (c.count ≤ vec_capacity c.bufs) × (1 ≤ c.count) × (c.count ≤ 64) };
}

/// The counts of a heap, its passes, and its superblocks in the order of the slots.
pub struct Key {
    pub(crate) counts: Counts,
    pub(crate) passes: u32,
    pub(crate) carves: Vec<Carve>,
}

impl Model for Key {
    ghost use Rattle.demi_heap_core.specs.declared.shape.Shape.{Shape};

    ghost Value = { Shape };

    ghost view = { λ k. record { small = k.counts.small; page = k.counts.page; large = k.counts.large; passes = k.passes; blocks = k.carves.items } };
}

//! The heap's table: a word for each slot, and a place for each buffer.
use crate::key::Key;
use atomic_table::{Seat, Shared, Table, TableRule};
use demi_buf::Buf;
use demi_heap_core::View;
use std::alloc::Global;

/// The rule: the table's state was reached by steps of the owner machine.
pub struct OneOwner;

impl TableRule<Option<Buf>, View<Buf>, Key> for OneOwner {
    ghost use Rattle.demi_heap.specs.Rule.{HeapRule};
    ghost use Rattle.demi_heap_core.specs.Schedule.{first_view};

    ghost holds = { HeapRule };

    ghost first = { first_view };
}

/// The words and slots, as all threads see them.
pub type Slots = Shared<Option<Buf>, View<Buf>, Key, OneOwner>;

/// The whole table, with its memory.
pub type HeapTable = Table<Option<Buf>, View<Buf>, Key, OneOwner, Global>;

/// A thread's right to step: of a pass, or of a half.
pub type HeapSeat = Seat<Option<Buf>, View<Buf>>;

// The bit of the application half.
pub(crate) const APP: u64 = 1;

// The bit of the device half.
pub(crate) const DEV: u64 = 2;

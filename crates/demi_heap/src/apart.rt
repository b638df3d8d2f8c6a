//! Two halves of one kind that exist at once lie in different slots. A caller learns it of two halves that it has.
ghost use Rattle.std.specs.Prelude.{◌≡◌, ◌≢◌, ◌<◌};
ghost use Rattle.demi_heap_core.specs.Schedule.{LieApart};
ghost use Rattle.demi_heap_core.specs.Steps.{no_guest, with_guest};

use crate::app_buf::AppBuf;
use crate::dev_buf::DevBuf;
use crate::heap::Heap;
use crate::lent::Lent;
use crate::plays::{Bare, KeepsApart, WithGuest};
use crate::table::{HeapSeat, Slots};

// The second half goes to the first seat as its guest, and back.
fn keep_apart(words: &Slots, first: &mut HeapSeat, second: &mut HeapSeat)
    requires table { (first.old.table_id ≡ words.now.table_id) × (second.old.table_id ≡ words.now.table_id) × (0 < words.now.table_id.words) }
    requires guest { (first.old.me.0.guest ≡ no_guest) × (second.old.me.0.shape ≡ first.old.me.0.shape) }
    ensures first { (first.new.table_id ≡ first.old.table_id) × (first.new.id ≡ first.old.id) × (first.new.me ≡ first.old.me) }
    ensures second { (second.new.table_id ≡ second.old.table_id) × (second.new.id ≡ second.old.id) × (second.new.me ≡ second.old.me) }
    ensures apart { LieApart (with_guest first.old.me.0 second.old.me.0) }
{
    let half = words.split_seat::<Bare>(second);
    words.join_seat::<WithGuest>(first, half);
    words.load::<KeepsApart>(first, 0);
    let half = words.split_seat::<WithGuest>(first);
    words.join_seat::<Bare>(second, half);
}

impl Heap {
    /// Shows that two sole halves of this heap lie in different slots. Both stay as they are.
    ///
    /// It costs a few loads of one owner word, and is for proofs: a caller that has two halves needs no test.
    pub fn apart(&self, first: &mut AppBuf, second: &mut AppBuf)
        requires { (first.old.heap ≡ self.now) × (second.old.heap ≡ self.now) }
        ensures same { (first.new ≡ first.old) × (second.new ≡ second.old) }
        ensures apart { first.new.slot ≢ second.new.slot }
    {
        keep_apart(&self.table.shared, &mut first.seat, &mut second.seat);
    }

    /// Shows that a sole half and a lent one lie in different slots, as `apart` does.
    pub fn apart_from_lent(&self, first: &mut AppBuf, second: &mut Lent)
        requires { (first.old.heap ≡ self.now) × (second.old.heap ≡ self.now) }
        ensures same { (first.new ≡ first.old) × (second.new ≡ second.old) }
        ensures apart { first.new.slot ≢ second.new.slot }
    {
        keep_apart(&self.table.shared, &mut first.seat, &mut second.seat);
    }

    /// Shows that two lent halves lie in different slots, as `apart` does.
    pub fn apart_lent(&self, first: &mut Lent, second: &mut Lent)
        requires { (first.old.heap ≡ self.now) × (second.old.heap ≡ self.now) }
        ensures same { (first.new ≡ first.old) × (second.new ≡ second.old) }
        ensures apart { first.new.slot ≢ second.new.slot }
    {
        keep_apart(&self.table.shared, &mut first.seat, &mut second.seat);
    }

    /// Shows that two device halves lie in different slots, as `apart` does.
    pub fn apart_on_devices(&self, first: &mut DevBuf, second: &mut DevBuf)
        requires { (first.old.heap ≡ self.now) × (second.old.heap ≡ self.now) }
        ensures same { (first.new ≡ first.old) × (second.new ≡ second.old) }
        ensures apart { first.new.slot ≢ second.new.slot }
    {
        keep_apart(&self.table.shared, &mut first.seat, &mut second.seat);
    }
}

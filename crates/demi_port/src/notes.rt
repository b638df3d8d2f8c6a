//! Notes of what a pass has seen.
ghost use Rattle.std.specs.Prelude.{◌≡◌, ◌+◌, [], max};
ghost use Rattle.demi_port_core.specs.Told.{noting, note_of, learning};
ghost use Rattle.demi_port_core.specs.declared.view.Role.TheVariants.{Pass, Note as noted};

use crate::key::Key;
use crate::pass::PortPass;
use crate::plays::{Learnt, Noted, Stayed};
use crate::port::Port;
use crate::tables::{SeatPair, Tables, TokenSeat};
use demi_port_core::Law;
use std::marker::Model;

/// What one pass has seen, for another to learn.
pub struct Note<L: Law> {
    pub(crate) seat: TokenSeat<L>,
    pub(crate) key: Key<L::Base>,
}

impl<L: Law> Model for Note<L> {
    ghost use Rattle.std.specs.Prelude.{◌≡◌, []};
    ghost use Rattle.demi_port_core.specs.declared.view.Role.TheVariants.{Note};
    ghost use Rattle.demi_port.specs.Seen.{NoteValue};

    ghost Value = { NoteValue L.Base };

    ghost view = { λ n. record { port = record { tokens = n.seat.table_id; key = n.key }; seen = n.seat.me.0.seen } };

    ghost invariant = { λ n. (n.seat.me.0.role ≡ Note) × (n.seat.me.1 ≡ []) × (n.seat.me.0.owes ≡ 0) };
}

impl<L: Law> Note<L> {
    pub(crate) fn into_seat(self) -> TokenSeat<L>
        ensures { (result.table_id ≡ self.port.tokens) × (result.me.0.role ≡ noted) × (result.me.0.seen ≡ self.seen) × (result.me.0.owes ≡ 0) × (result.me.1 ≡ []) }
    {
        let Self { seat, key: _ } = self;
        seat
    }
}

impl<L: Law> Drop for Note<L> {
    fn drop(self) {
        let Self { seat: _, key: _ } = self;
    }
}

impl<L: Law> Port<L> {
    /// What this pass has seen, for another.
    pub fn note(&self, pass: &mut PortPass<L>) -> Note<L>
        requires port { pass.old.port ≡ self.now }
        ensures pass { pass.new ≡ record pass.old { notes = pass.old.notes + 1 } }
        ensures note { result ≡ record { port = self.now; seen = pass.old.seen } }
    {
        let seat = self.tables.note(&mut pass.pair);
        Note {
            seat,
            key: pass.key.again(),
        }
    }

    /// The pass has then seen what the note tells as well. It reads the ticket once, and keeps nothing of what it found there.
    pub fn learn(&self, pass: &mut PortPass<L>, note: Note<L>)
        requires port { (pass.old.port ≡ self.now) × (note.port ≡ self.now) }
        ensures { pass.new ≡ record pass.old { seen = max pass.old.seen note.seen; learnt = pass.old.learnt + 1 } }
    {
        self.tables.learn(&mut pass.pair, note.into_seat());
    }
}

impl<L: Law> Tables<L> {
    // What this pass has seen, for another.
    pub(crate) fn note(&self, pass: &mut SeatPair<L>) -> TokenSeat<L>
        requires port { pass.old.seat.table_id ≡ self.now.table.shared.table_id }
        requires pass { pass.old.seat.me.0.role ≡ Pass }
        ensures pass { (pass.new.seat.table_id ≡ pass.old.seat.table_id) × (pass.new.seat.me ≡ (noting pass.old.seat.me.0, pass.old.seat.me.1)) × (pass.new.record ≡ pass.old.record) }
        ensures note { (result.table_id ≡ self.now.table.shared.table_id) × (result.me ≡ (note_of pass.old.seat.me.0, [])) }
    {
        self.table.shared.split_seat::<Noted>(&mut pass.seat)
    }

    // The pass has seen that as well.
    pub(crate) fn learn(&self, pass: &mut SeatPair<L>, note: TokenSeat<L>)
        requires port { (pass.old.seat.table_id ≡ self.now.table.shared.table_id) × (note.table_id ≡ self.now.table.shared.table_id) × (note.me.0.role ≡ noted) × (note.me.1 ≡ []) }
        ensures { (pass.new.seat.table_id ≡ pass.old.seat.table_id) × (pass.new.record ≡ pass.old.record) × (pass.new.seat.me ≡ (learning pass.old.seat.me.0 note.me.0, pass.old.seat.me.1)) }
    {
        self.table.shared.join_seat::<Learnt>(&mut pass.seat, note);
        self.table.shared.load::<Stayed>(&mut pass.seat, 0);
    }
}

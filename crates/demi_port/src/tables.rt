//! The two tables of a port, and the seats of a pass or of the device on both.
//!
//! The token table has a word for the ticket, one for the doorbell bits, one for the waker bits, and one for each token, all on
//! cache lines of their own (`demi_port_core` says where). The slot of the token `i` is `i`. The record table has one word, which
//! is always 0, and no slots.
ghost use Rattle.std.specs.Prelude.{◌≡◌, ◌+◌, ◌≤◌};
ghost use Rattle.atomic_table.specs.Seated.{table_id_coded};
ghost use Rattle.std.specs.Coded.{Coded-set};
ghost use Rattle.demi_port_core.specs.Words.{token_word};

use crate::key::Key;
use crate::rules::{Records, Tokens};
use atomic_table::{Badge, Seat, Table};
use demi_port_core::{Law, Slip, Trail, View};
use std::alloc::Global;

/// A seat on the token table.
pub(crate) type TokenSeat<L> = Seat<
    Option<Slip<<L as Law>::Op, <L as Law>::Out, Badge<Trail<<L as Law>::Said, <L as Law>::Told>>>>,
    View<<L as Law>::Said, Key<<L as Law>::Base>>,
>;

/// The tables, and how many tokens there are.
pub(crate) struct Tables<L: Law> {
    pub(crate) table: Table<
        Option<Slip<L::Op, L::Out, Badge<Trail<L::Said, L::Told>>>>,
        View<L::Said, Key<L::Base>>,
        Key<L::Base>,
        Tokens<L>,
        Global,
    >,
    pub(crate) records: Table<(), Trail<L::Said, L::Told>, (), Records, Global>,
    pub(crate) count: u32,
    ghost sized: { (table.shared.table_id.words ≡ token_word count) × (table.shared.table_id.slots ≡ count) × (count ≤ 64) × (1 ≤ count) },
    ghost one_word: { (records.shared.table_id.words ≡ 1) × (records.shared.table_id.slots ≡ 0) },
    ghost tied: { table.shared.key.records ≡ records.shared.table_id } by { Coded-set table_id_coded table.shared.key.records records.shared.table_id },
}

/// A seat on each table.
pub(crate) struct SeatPair<L: Law> {
    pub(crate) seat: TokenSeat<L>,
    pub(crate) record: Seat<(), Trail<L::Said, L::Told>>,
}

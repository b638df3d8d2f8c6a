//! How a device takes in what rang.
ghost use Rattle.std.specs.Prelude.{◌≡◌, ◌≢◌, ℕ, ◌+◌, ◌<◌, ◌≤◌, false, true, length};
ghost use Rattle.std.specs.Int.{bit_at};
ghost use Rattle.demi_port_core.specs.Bits.{has_bit};
ghost use Rattle.demi_device.specs.Holding.{FetchedMore, OnlyFetched, TookIn};
ghost use Rattle.demi_device.specs.Turning.{NoBell, WasQuiet};

use crate::early::Early;
use crate::inbox::Inbox;
use demi_port::Port;
use demi_port_core::{Bits, Law};
use std::sync::Wait;

impl<L: Law> Inbox<L> {
    // Fetches one operation. It may come before others of lower places.
    fn fetch_one(&mut self, port: &Port<L>, index: u32)
        requires port { self.old.seat.port ≡ port.now }
        requires taken { (index < port.now.tokens.slots) × (bit_at self.old.seat.rang index ≡ 1) }
        ensures given { self.new.given ≡ self.old.given }
        ensures fetched { OnlyFetched index self.old.seat self.new.seat }
        ensures room { length self.new.seat.fetched ≤ length self.new.seat.finished + port.now.tokens.slots }
    {
        let (token, place, op) = port.fetch(&mut self.seat, index);
        let at = (place.0 % self.count as u64) as usize;
        match self.ring[at].replace(Early { place, token, op }) {
            None => {}
            Some(_) => unreachable!(),
        }
        self.early += 1;
    }

    // How many of the doorbells may be a token's.
    fn bells(&self) -> u32
        ensures few { (result ≤ 64) × (result ≤ self.now.seat.port.tokens.slots) }
        ensures all { (i : ℕ) → i < self.now.seat.port.tokens.slots → i < 64 → i < result }
    {
        self.count.min(64)
    }

    // Fetches each operation whose doorbell was taken, and tells whether there was one.
    fn fetch_rung(&mut self, port: &Port<L>, bells: &Bits) -> bool
        requires port { self.old.seat.port ≡ port.now }
        requires taken { (i : ℕ) → i < port.now.tokens.slots → i < 64 → has_bit bells.now.words i ≡ 1 → bit_at self.old.seat.rang i ≡ 1 }
        requires rest { (i : ℕ) → i < port.now.tokens.slots → i < 64 → has_bit bells.now.words i ≢ 1 → bit_at self.old.seat.rang i ≡ 0 }
        ensures given { self.new.given ≡ self.old.given }
        ensures fetched { FetchedMore self.old.seat self.new.seat }
        ensures cleared { NoBell port.now.tokens.slots self.new.seat.rang }
        ensures none { result ≡ false → (self.new.seat.fetched ≡ self.old.seat.fetched) × ((i : ℕ) → i < port.now.tokens.slots → i < 64 → has_bit bells.now.words i ≢ 1) }
        ensures some { result ≡ true → (length self.old.seat.fetched < length self.new.seat.fetched) × (length self.new.seat.fetched ≤ length self.new.seat.finished + port.now.tokens.slots) }
    {
        let mut some = false;
        for index in 0..self.bells() {
            if bells.words[0] >> index == 0 {
                return some;
            }
            if bells.has(index) {
                self.fetch_one(port, index);
                some = true;
            }
        }
        some
    }

    /// Lets other threads run, before the doorbells are taken again.
    pub(crate) fn rest<R: Wait>(&mut self, rt: &R, port: &Port<L>)
        requires port { self.old.seat.port ≡ port.now }
        ensures { self.new ≡ self.old }
    {
        port.rest(rt, &mut self.seat);
    }

    /// Takes the doorbells and fetches each operation that rang, and tells whether there was one.
    pub(crate) fn take_in(&mut self, port: &Port<L>) -> bool
        requires port { self.old.seat.port ≡ port.now }
        requires cleared { NoBell port.now.tokens.slots self.old.seat.rang }
        ensures given { self.new.given ≡ self.old.given }
        ensures took { TookIn self.old.seat self.new.seat }
        ensures cleared { NoBell port.now.tokens.slots self.new.seat.rang }
        ensures quiet { result ≡ false → WasQuiet self.old.seat self.new.seat × (self.new.seat.fetched ≡ self.old.seat.fetched) }
        ensures some { result ≡ true → (length self.old.seat.fetched < length self.new.seat.fetched) × (length self.new.seat.fetched ≤ length self.new.seat.finished + port.now.tokens.slots) }
    {
        let bells = port.take(&mut self.seat);
        if bells.words[0] == 0 {
            return false;
        }
        self.fetch_rung(port, &bells)
    }
}

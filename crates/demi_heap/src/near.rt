//! Where a pass's next claims begin.
ghost use Rattle.std.specs.Prelude.{◌<◌, ◌≤◌};

use crate::counts::Counts;
use demi_buf::Class;
use std::marker::Model;

// No slot has this number.
const NO_SLOT: u32 = u32::MAX;

// Two slots of one class that may be free: the one that the pass freed last, unless it has claimed since, and the one behind
// the last that it claimed beside those. So a pass that claims and frees in turn stays at one slot, and the claims of one
// whose slots are freed elsewhere go on where the last ended, and come to a held slot again only once round the class.
#[derive(Clone, Copy)]
struct Spot {
    freed: u32,
    behind: u32,
}

impl Spot {
    fn at(slot: u32) -> Spot {
        Spot {
            freed: NO_SLOT,
            behind: slot,
        }
    }

    fn later(self, slots: u32) -> Spot {
        Spot::at(self.behind.saturating_add(slots))
    }

    fn claimed(self, slot: u32) -> Spot {
        if slot == self.freed {
            Spot::at(self.behind)
        } else {
            Spot::at(slot.saturating_add(1))
        }
    }

    fn freed(self, slot: u32) -> Spot {
        Spot {
            freed: slot,
            behind: self.behind,
        }
    }

    // One of the slots from `first` on, below `end`, where there is one.
    fn start(self, first: u32, end: u32) -> u32
        requires { first ≤ end }
        ensures range { (first ≤ result) × (result ≤ end) }
        ensures inside { first < end → result < end }
    {
        if first <= self.freed && self.freed < end {
            self.freed
        } else if first <= self.behind && self.behind < end {
            self.behind
        } else {
            first
        }
    }
}

// Where a pass's next claim of each class begins. It is a guess that no clause rests on: a claim goes round its class wherever
// it begins.
#[derive(Drop)]
pub(crate) struct Near {
    small: Spot,
    page: Spot,
    large: Spot,
}

// A contract sees nothing of it.
impl Model for Near {
    ghost Value = { Unit {0} };

    ghost view = { λ _. tt };
}

impl Near {
    // Where the first of so many passes begins. They lie apart, so that passes at work at once seldom meet; and not at the
    // first slot of all, whose word each of them loads whenever a half parts from it.
    pub(crate) fn first_of(counts: &Counts, passes: u32) -> Near
        requires { 1 ≤ passes }
    {
        let small = counts.small / passes / 2;
        let page = counts.small.saturating_add(counts.page / passes / 2);
        let large = counts.small.saturating_add(counts.page);
        let large = large.saturating_add(counts.large / passes / 2);
        Near {
            small: Spot::at(small),
            page: Spot::at(page),
            large: Spot::at(large),
        }
    }

    // Where the pass after this one begins.
    pub(crate) fn next_of(&self, counts: &Counts, passes: u32) -> Near
        requires { 1 ≤ passes }
    {
        Near {
            small: self.small.later(counts.small / passes),
            page: self.page.later(counts.page / passes),
            large: self.large.later(counts.large / passes),
        }
    }

    pub(crate) fn claimed(&mut self, class: Class, slot: u32) {
        match class {
            Class::Small => self.small = self.small.claimed(slot),
            Class::Page => self.page = self.page.claimed(slot),
            Class::Large => self.large = self.large.claimed(slot),
        }
    }

    pub(crate) fn freed(&mut self, class: Class, slot: u32) {
        match class {
            Class::Small => self.small = self.small.freed(slot),
            Class::Page => self.page = self.page.freed(slot),
            Class::Large => self.large = self.large.freed(slot),
        }
    }

    // Where a claim of the class begins, in the slots from `first` on, below `end`.
    pub(crate) fn start(&self, class: Class, first: u32, end: u32) -> u32
        requires { first ≤ end }
        ensures range { (first ≤ result) × (result ≤ end) }
        ensures inside { first < end → result < end }
    {
        match class {
            Class::Small => self.small.start(first, end),
            Class::Page => self.page.start(first, end),
            Class::Large => self.large.start(first, end),
        }
    }
}

//! A coroutine that asks for doubles, one after the other.
ghost use Rattle.std.specs.Prelude.{◌≡◌};
ghost use Rattle.demi_sched.specs.InTests.{answer_of};

use super::desk::Desk;
use crate::coroutine::Coroutine;
use crate::next::Next;
use arrayvec::ArrayVec;
use demi_port_core::{QToken, Token};

/// It has so many numbers left to ask for, the last of which is 1.
#[derive(Drop)]
pub(crate) struct Asker {
    pub(crate) name: u32,
    left: u32,
    /// The sum of what it was answered.
    pub(crate) sum: u64,
    polls: u64,
    waits: Option<Token>,
    over: bool,
}

// What a poll answers that leaves the coroutine so.
fn answer(over: bool, waits: Option<Token>) -> Next
    ensures { result ≡ answer_of over waits }
{
    if over {
        return Next::Ended;
    }
    match waits {
        None => Next::Yield,
        Some(token) => {
            let mut tokens = ArrayVec::new();
            tokens.push(QToken { port: 0, token });
            Next::Wait(tokens)
        }
    }
}

impl Asker {
    pub(crate) fn new(name: u32, left: u32) -> Asker
        ensures { result.name ≡ name }
    {
        Asker {
            name,
            left,
            sum: 0,
            polls: 0,
            waits: None,
            over: false,
        }
    }

    // Asks for the next number, if a token is free.
    fn ask(&mut self, desk: &mut Desk)
        ensures same { (self.new.name ≡ self.old.name) × (self.new.polls ≡ self.old.polls) }
        ensures seen { desk.new ≡ desk.old }
    {
        self.waits = desk.ask(self.left);
        if self.waits.is_some() {
            self.left = self.left.saturating_sub(1);
        }
    }

    // Takes the answer, if it is there.
    fn go_on(&mut self, desk: &mut Desk)
        ensures same { (self.new.name ≡ self.old.name) × (self.new.polls ≡ self.old.polls) }
        ensures seen { desk.new ≡ desk.old }
    {
        if let Some(token) = self.waits {
            let Some(out) = desk.answer(token) else {
                return;
            };
            self.sum = self.sum.wrapping_add(out);
            if self.left == 0 {
                self.over = true;
                return;
            }
        }
        self.ask(desk);
    }
}

impl Coroutine<Desk> for Asker {
    ghost use Rattle.demi_sched.specs.InTests.{answer_of};

    ghost name = { λ k. k.name };

    ghost polls = { λ k. k.polls };

    ghost last = { λ k. answer_of k.over k.waits };

    ghost fits = { λ k c. Unit {0} };

    fn poll(&mut self, desk: &mut Desk) -> Next {
        self.polls = self.polls.saturating_add(1);
        self.go_on(desk);
        answer(self.over, self.waits)
    }

    ghost fits_on = { λ _ _ _ _ _ _ _. tt };
}

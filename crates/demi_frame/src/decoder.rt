ghost use Rattle.std.specs.Prelude.{◌≡◌, ◌≤◌, length, drop, vec_capacity};

use crate::head::{Found, Kind, found_at};
use demi_core::NoMemory;
use std::alloc::Global;
use std::marker::Model;

/// What [`Decoder::next`] found.
#[derive(Clone, Copy, Debug, PartialEq, Eq)]
pub enum Step {
    /// Neither a whole frame nor a refused one: feed more.
    More,
    /// A put. [`Decoder::key`] and [`Decoder::value`] have its key and value.
    Put,
    /// A get. [`Decoder::key`] has its key.
    Get,
    /// The end frame. What follows it is not looked at.
    End,
    /// A frame that is refused, with its code from 1 to 4. What follows it is not looked at.
    Refused(u8),
}

// One largest frame, of 65,797 bytes, and 4,096 bytes more.
const ROOM: usize = 69893;

/// A decoder of requests that come in pieces. Contracts see of it the bytes fed and not consumed, the request that was
/// handed out last, and how the input ended where that is known.
#[derive(Drop)]
pub struct Decoder {
    // The last frame that was handed out, and what follows it.
    room: Vec<u8>,
    // Where the rest begins: the last frame's key and value end there.
    from: usize,
    key: usize,
    value: usize,
    last: Option<Kind>,
    stop: Option<Step>,
    hungry: bool,
}

// Keeps what stands from a place on. A drain would turn the whole room round for it.
fn keep_from(room: &mut Vec<u8>, from: usize)
    requires { from ≤ length room.old.items }
    ensures items { room.new.items ≡ drop from room.old.items }
    ensures capacity { vec_capacity room.new ≡ vec_capacity room.old }
{
    if from == 0 {
        return;
    }
    let rest = room.len() - from;
    room.copy_within(from.., 0);
    room.truncate(rest);
}

impl Model for Decoder {
    ghost use Rattle.demi_frame.specs.Decoding.{Decoding};

    ghost Value = { Decoding };

    ghost use Rattle.demi_frame.specs.Inside.{decoding, IsDecoder};

    ghost view = { decoding };

    ghost invariant = { IsDecoder };
}

impl Decoder {
    ghost use Rattle.std.specs.Prelude.{◌≡◌, ◌≤◌, ◌-◌, ◌<◌, ◌++◌, length, take, min, true, false, List, ℕ, [], None, Some, IfOk, IsTrue, ◌≢◌};
    ghost use Rattle.demi_spec.specs.Request.{Request};
    ghost use Rattle.demi_spec.specs.Input.{front, Ends, Open, Parses};
    ghost use Rattle.demi_frame.specs.Decoding.{room_size, after_feed, next_of, finish_of, IsAsked, Consumes, key_of, value_of};
    ghost use Rattle.demi_frame.specs.Reading.{HasRead, handed_out, ending_of};

    /// A decoder that nothing was fed. Its room, for one largest frame and 4,096 bytes more, is all the memory that it
    /// ever takes.
    pub fn make(alloc: Global) -> Result<Decoder, NoMemory>
        ensures made { IfOk result (λ d. d ≡ record { rest = []; last = None; stop = None; hungry = true }) }
        ensures read { IfOk result (λ d. HasRead [] [] d) }
    {
        Ok(Decoder {
            room: Vec::with_capacity(alloc, ROOM)?,
            from: 0,
            key: 0,
            value: 0,
            last: None,
            stop: None,
            hungry: true,
        })
    }

    /// Takes bytes from the front of a piece, as many as the room holds, and says how many. A piece of at most 4,096
    /// bytes is taken whole where nothing was fed yet, or nothing since [`Decoder::next`] asked for more.
    pub fn feed(&mut self, piece: &[u8]) -> usize
        ensures taken { result ≡ min (length piece.now) (room_size - length self.old.rest) }
        ensures fed { self.new ≡ after_feed self.old (take result piece.now) }
        ensures whole { IsTrue self.old.hungry → length piece.now ≤ 4096 → result ≡ length piece.now }
        ensures read { (fed : List ℕ) (handed : List Request) → HasRead fed handed self.old → HasRead (fed ++ take result piece.now) handed self.new }
    {
        self.add(piece)
    }

    // The same, without what was handed out.
    fn add(&mut self, piece: &[u8]) -> usize
        ensures taken { result ≡ min (length piece.now) (room_size - length self.old.rest) }
        ensures fed { self.new ≡ after_feed self.old (take result piece.now) }
        ensures whole { IsTrue self.old.hungry → length piece.now ≤ 4096 → result ≡ length piece.now }
    {
        keep_from(&mut self.room, self.from);
        self.from = 0;
        self.key = 0;
        self.value = 0;
        self.last = None;
        self.hungry = false;
        let count = piece.len().min(ROOM - self.room.len());
        let _ = self.room.extend_from_slice(&piece[..count]);
        count
    }

    /// The next request, which is consumed, or why there is none. After the end frame or a refused frame it answers the
    /// same again.
    pub fn next(&mut self) -> Step
        ensures next { (result, self.new) ≡ next_of self.old self.old.stop }
        ensures consumed { self.old.stop ≡ None → Consumes self.old.rest self.new result }
        ensures read { (fed : List ℕ) (handed : List Request) → HasRead fed handed self.old → HasRead fed (handed ++ handed_out self.old.stop result self.new.last) self.new }
    {
        self.take_front()
    }

    // The same, without what was handed out.
    fn take_front(&mut self) -> Step
        ensures next { (result, self.new) ≡ next_of self.old self.old.stop }
        ensures consumed { self.old.stop ≡ None → Consumes self.old.rest self.new result }
    {
        self.last = None;
        self.hungry = false;
        if let Some(stop) = self.stop {
            return stop;
        }
        match found_at(&self.room[self.from..]) {
            Found::More => {
                self.hungry = true;
                Step::More
            }
            Found::Refused(code) => {
                self.stop = Some(Step::Refused(code));
                Step::Refused(code)
            }
            Found::Whole(kind, key, value) => {
                self.key = key;
                self.value = value;
                self.from += 6 + key + value;
                match kind {
                    Kind::Put => {
                        self.last = Some(kind);
                        Step::Put
                    }
                    Kind::Get => {
                        self.last = Some(kind);
                        Step::Get
                    }
                    Kind::End => {
                        self.stop = Some(Step::End);
                        Step::End
                    }
                }
            }
        }
    }

    /// The key of the put or get that was handed out last, until the next [`Decoder::feed`] or [`Decoder::next`];
    /// nothing otherwise.
    pub fn key(&self) -> &[u8]
        ensures { result.now ≡ key_of self.now.last }
    {
        match self.last {
            Some(Kind::Put | Kind::Get) => {
                let start = self.from - self.value - self.key;
                &self.room[start..start + self.key]
            }
            _ => &[],
        }
    }

    /// The value of the put that was handed out last, likewise.
    pub fn value(&self) -> &[u8]
        ensures { result.now ≡ value_of self.now.last }
    {
        match self.last {
            Some(Kind::Put) => &self.room[self.from - self.value..self.from],
            _ => &[],
        }
    }

    /// How an input ends whose last byte was fed: with a code where it is refused, 5 where it ends inside a frame.
    /// `None` exactly where nothing is left to consume, or where the end frame came.
    pub fn finish(&mut self) -> Option<u8>
        requires { IsAsked self.old }
        ensures same { self.new ≡ self.old }
        ensures code { result ≡ finish_of self.old self.old.stop }
        ensures read { (fed : List ℕ) (handed : List Request) → HasRead fed handed self.old → Parses handed (ending_of self.old.stop result) true fed }
    {
        self.code_at_end()
    }

    // The same, without what was handed out.
    fn code_at_end(&self) -> Option<u8>
        requires { IsAsked self.now }
        ensures code { result ≡ finish_of self.now self.now.stop }
        ensures more { self.now.stop ≡ None → front false self.now.rest ≡ Ends Open }
    {
        match self.stop {
            Some(Step::Refused(code)) => return Some(code),
            Some(_) => return None,
            None => {}
        }
        if self.from == self.room.len() {
            return None;
        }
        Some(5)
    }
}

#[cfg(test)]
mod tests {
    use super::*;
    use std::test::Fail;

    // What is handed out of an input that is fed in pieces of this length: the keys and values, a mark behind each.
    fn decoded(alloc: Global, input: &[u8], piece: usize) -> Result<Vec<u8>, Fail> {
        let mut decoder = Decoder::make(alloc)?;
        let mut text = Vec::new(alloc);
        for bytes in input.chunks(piece.max(1)) {
            decoder.feed(bytes);
            for _ in 0..input.len() {
                let step = decoder.next();
                text.extend_from_slice(decoder.key())?;
                text.extend_from_slice(decoder.value())?;
                match step {
                    Step::More => break,
                    Step::Put => text.push(b'!')?,
                    Step::Get => text.push(b'?')?,
                    Step::End | Step::Refused(_) => {
                        text.push(b'.')?;
                        return Ok(text);
                    }
                }
            }
        }
        Ok(text)
    }

    #[test]
    fn pieces_of_any_length_give_the_same_requests(rt: HostRuntime) -> Result<(), Fail> {
        let input =
            b"\x01\x01\x00\x00\x00\x01a1\x02\x02\x00\x00\x00\x00ab\x01\x01\x00\x00\x00\x00c\x03\x00\x00\x00\x00\x00more";
        for piece in [1, 2, 3, 7, 4096] {
            let text = decoded(rt.alloc(), input, piece)?;
            assert_eq!(rt; text.as_slice(), b"a1!ab?c!.".as_slice());
        }
        Ok(())
    }

    #[test]
    fn an_input_that_ends_inside_a_frame_has_code_5(rt: HostRuntime) -> Result<(), Fail> {
        let mut decoder = Decoder::make(rt.alloc())?;
        decoder.feed(b"\x02\x02\x00\x00\x00\x00a");
        let Step::More = decoder.next() else {
            panic!(rt; "the key has one byte of two");
        };
        assert_eq!(rt; decoder.finish(), Some(5));
        Ok(())
    }
}

// The requests of an input that is in memory, one after another.
ghost use Rattle.std.specs.Prelude.{◌≡◌, ◌≤◌, ◌++◌, ℕ, List, [], None, length, drop};
ghost use Rattle.demi_frame.specs.Decoding.{key_of, value_of};

use demi_frame::{Decoder, Step};

// How many bytes the decoder is fed at once.
const PIECE_BYTES: usize = 4096;

/// What stands next in an input.
#[derive(Clone, Copy)]
pub(crate) enum Next {
    /// A put.
    Put,
    /// A get.
    Get,
    /// The end frame. What follows it is not looked at.
    End,
    /// Bytes that are refused with a code, 5 where the input ends inside a frame.
    Refused(u8),
    /// Nothing: the input ended behind a request.
    Clean,
}

/// An input, its decoder, and how many of its bytes this was fed.
#[derive(Drop)]
pub(crate) struct InputReader<'a> {
    pub(crate) input: &'a [u8],
    pub(crate) decoder: Decoder,
    pub(crate) fed: usize,
}

impl InputReader<'_> {
    ghost use Rattle.demi_audit.specs.Inputs.{IsReader, IsNext, left};

    /// What stands next, which is handed out. Nothing may be asked behind an end frame, a refused frame or the end.
    pub(crate) fn next(&mut self) -> Next
        requires { IsReader self.old }
        ensures { IsNext result self.old self.new }
    {
        'feeding: loop {
            match self.decoder.next() {
                Step::More => {
                    let rest = &self.input[self.fed..];
                    if rest.is_empty() {
                        return match self.decoder.finish() {
                            Some(code) => Next::Refused(code),
                            None => Next::Clean,
                        };
                    }
                    self.fed += self.decoder.feed(&rest[..rest.len().min(PIECE_BYTES)]);
                }
                Step::Put => return Next::Put,
                Step::Get => return Next::Get,
                Step::End => return Next::End,
                Step::Refused(code) => return Next::Refused(code),
            }
        }
    }

    /// The key of the put or get that was handed out last.
    pub(crate) fn key(&self) -> &[u8]
        ensures { result.now ≡ key_of self.now.decoder.last }
    {
        self.decoder.key()
    }

    /// The value of the put that was handed out last.
    pub(crate) fn value(&self) -> &[u8]
        ensures { result.now ≡ value_of self.now.decoder.last }
    {
        self.decoder.value()
    }
}

ghost use Rattle.std.specs.Prelude.{◌≡◌, ◌+◌, ◌≤◌, ◌^◌, [], None, length, unwrap_or};

use crate::draining::drain;
use crate::inlet::Inlet;
use crate::once::read_once;
use demi_core::{Failed, Source};
use std::io::Stdin;
use std::net::TcpStream;
use std::rt::Clock;

// How many bytes a source gives at most.
const MAX_GIVEN_BYTES: u64 = 1 << 34;

// How many bytes one read takes at most.
const READ_BYTES: usize = 8192;

/// Standard input, as it was when the program began, or what comes over a connection.
#[derive(Drop)]
pub struct StreamIn {
    inlet: Inlet,
    given_bytes: u64,
    faults: u64,
    // Here a read of the system writes first: what it leaves of a room behind what it read is not promised.
    piece: [u8; READ_BYTES],
    ghost most: { given_bytes ≤ 2 ^ 34 },
}

impl StreamIn {
    /// Standard input. It gave nothing yet.
    pub fn new(stdin: Stdin) -> StreamIn
        ensures taken { ⟦<StreamIn as Source>⟧.taken result ≡ 0 }
        ensures left { ⟦<StreamIn as Source>⟧.left result ≡ None }
        ensures faults { ⟦<StreamIn as Source>⟧.faults result ≡ 0 }
    {
        StreamIn::from_inlet(Inlet::Standard(stdin))
    }

    /// What comes over a connection. It gave nothing yet. The end of its bytes is where the other side shut its writing.
    pub fn from_connection(stream: TcpStream) -> StreamIn
        ensures taken { ⟦<StreamIn as Source>⟧.taken result ≡ 0 }
        ensures left { ⟦<StreamIn as Source>⟧.left result ≡ None }
        ensures faults { ⟦<StreamIn as Source>⟧.faults result ≡ 0 }
    {
        StreamIn::from_inlet(Inlet::Connection(stream))
    }

    // It gave nothing yet.
    fn from_inlet(inlet: Inlet) -> StreamIn
        ensures taken { result.given_bytes ≡ 0 }
        ensures faults { result.faults ≡ 0 }
    {
        StreamIn {
            inlet,
            given_bytes: 0,
            faults: 0,
            piece: [0; READ_BYTES],
        }
    }

    // How many bytes were given.
    pub(crate) fn given_bytes(&self) -> u64
        ensures { result ≡ self.now.given_bytes }
    {
        self.given_bytes
    }

    // How many faults there were.
    pub(crate) fn faults(&self) -> u64
        ensures { result ≡ self.now.faults }
    {
        self.faults
    }

    // Closes it: a connection once what still comes over it was dropped.
    pub(crate) fn close<R: Clock>(self, rt: &R) {
        if let Inlet::Connection(mut stream) = self.inlet {
            drain(rt, &mut stream);
        }
    }
}

impl Source for StreamIn {
    ghost taken = { λ s. s.given_bytes };

    ghost left = { λ s. None };

    ghost faults = { λ s. s.faults };

    // It tells of a read only that it counts the bytes that it gave.
    ghost reads = { λ s room gave t. t.given_bytes ≡ s.given_bytes + length (unwrap_or gave []) };

    ghost told_bytes = { λ s. tt };

    fn read(&mut self, room: &mut [u8]) -> Result<usize, Failed> {
        let piece = &mut self.piece[..];
        let most = room.len().min(piece.len());
        if self.given_bytes < MAX_GIVEN_BYTES {
            let most = (MAX_GIVEN_BYTES - self.given_bytes).min(most as u64) as usize;
            if let Some(count) = read_once(&mut self.inlet, &mut piece[..most]) {
                room[..count].copy_from_slice(&piece[..count]);
                self.given_bytes += count as u64;
                return Ok(count);
            }
        }
        self.faults = self.faults.saturating_add(1);
        Err(Failed)
    }
}

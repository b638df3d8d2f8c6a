// How a connection is closed whose other side may still send: a close while bytes are unread, or that is followed by more of
// them, resets the connection, and then replies that are on their way are lost.
ghost use Rattle.std.specs.Prelude.{◌≤◌, IfOk};

use std::io;
use std::io::{ErrorKind, Read};
use std::net::TcpStream;
use std::rt::Clock;
use std::time::{Duration, Instant};

// How many bytes are dropped at most, and for how long it goes on at most.
const MAX_DROPPED_BYTES: usize = 1 << 20;

const MAX_SECONDS: u64 = 2;

// How many bytes one read takes at most.
const READ_BYTES: usize = 8192;

// Reads once, and says how many bytes came: none at the end, and where the time is over.
fn drop_some<R: Clock>(
    rt: &R,
    begun: Instant,
    stream: &mut TcpStream,
    most: usize,
) -> io::Result<usize>
    ensures { IfOk result (λ count. count ≤ most) }
{
    let left = Duration::from_secs(MAX_SECONDS).saturating_sub(begun.elapsed(rt)?);
    if left.is_zero() {
        return Ok(0);
    }
    stream.set_read_timeout(Some(left))?;
    let mut room = [0u8; READ_BYTES];
    stream.read(&mut room[..most.min(READ_BYTES)])
}

// Drops what still comes of a connection whose writing side is shut: to its end, for about two seconds and a mebibyte at
// most. Whatever fails, nobody waits for the answer.
pub(crate) fn drain<R: Clock>(rt: &R, stream: &mut TcpStream) {
    let Ok(begun) = Instant::now(rt) else {
        return;
    };
    let mut left_bytes = MAX_DROPPED_BYTES;
    // Each read drops a byte at least, or was interrupted.
    'dropping: for _read in 0..MAX_DROPPED_BYTES {
        match drop_some(rt, begun, stream, left_bytes) {
            Ok(count) if count > 0 => left_bytes -= count,
            Err(error) if error.kind() == ErrorKind::Interrupted => {}
            _ => return,
        }
    }
}

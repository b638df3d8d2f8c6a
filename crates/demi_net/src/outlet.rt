ghost use Rattle.std.specs.Prelude.{◌≡◌, ◌+◌, ◌<◌, ◌≤◌, length, true, IfOk, IfSome};

use std::io;
use std::io::{ErrorKind, IoSlice, Stdout, Write};
use std::net::TcpStream;

// Where the bytes of a sink go.
#[derive(Drop)]
pub(crate) enum Outlet {
    Standard(Stdout),
    Connection(TcpStream),
}

impl Write for Outlet {
    fn write(&mut self, piece: &[u8]) -> io::Result<usize> {
        match self {
            Outlet::Standard(stdout) => stdout.write(piece),
            Outlet::Connection(stream) => stream.write(piece),
        }
    }

    fn flush(&mut self) -> io::Result<()> {
        match self {
            Outlet::Standard(stdout) => stdout.flush(),
            Outlet::Connection(stream) => stream.flush(),
        }
    }
}

// How many bytes two pieces may have in all that are copied together, so that standard output takes them in one call: the
// toolchain has no call by which it takes two. To copy so few costs less than a second call, which may wake a reader each time.
const SHORT_BYTES: usize = 512;

fn is_short(first: &[u8], second: &[u8]) -> bool
    ensures { result ≡ true → length first.now + length second.now ≤ 512 }
{
    first.len() <= SHORT_BYTES && second.len() <= SHORT_BYTES - first.len()
}

// Two pieces that are short, in one call to the system.
fn write_joined(stdout: &mut Stdout, first: &[u8], second: &[u8]) -> io::Result<usize>
    requires { length first.now + length second.now ≤ 512 }
    ensures { IfOk result (λ count. count ≤ length first.now + length second.now) }
{
    let many = first.len() + second.len();
    let mut joined = [0u8; SHORT_BYTES];
    joined[..first.len()].copy_from_slice(first);
    joined[first.len()..many].copy_from_slice(second);
    stdout.write(&joined[..many])
}

impl Outlet {
    // One call to the system. Of pieces that are long standard output takes the first that has bytes alone, for a copy of both
    // into one buffer would be made again of what the system did not take.
    fn write_two(&mut self, first: &[u8], second: &[u8]) -> io::Result<usize>
        ensures { IfOk result (λ count. count ≤ length first.now + length second.now) }
    {
        match self {
            Outlet::Standard(stdout) if is_short(first, second) => write_joined(
                stdout, first, second,
            ),
            Outlet::Standard(stdout) if first.is_empty() => stdout.write(second),
            Outlet::Standard(stdout) => stdout.write(first),
            // By its path: the method of `Write` of this name, which calls the system twice, would come before it.
            Outlet::Connection(stream) => {
                TcpStream::write_vectored(stream, &[IoSlice::new(first), IoSlice::new(second)])
            }
        }
    }

    // How many bytes of both pieces joined were taken, at least one, or none at an error.
    pub(crate) fn write_two_once(&mut self, first: &[u8], second: &[u8]) -> Option<usize>
        ensures within { IfSome result (λ count. count ≤ length first.now + length second.now) }
        ensures some { IfSome result (λ count. 0 < count) }
    {
        'trying: for _call in 0..u64::MAX {
            match self.write_two(first, second) {
                Ok(count) if count > 0 => return Some(count),
                Err(error) if error.kind() == ErrorKind::Interrupted => {}
                _ => return None,
            }
        }
        None
    }
}

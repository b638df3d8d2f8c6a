// Links over the connections that come in at an address.
ghost use Rattle.std.specs.Prelude.{◌≡◌, IfOk, map, replicate, vec_len};
ghost use Rattle.demi_net.specs.Links.{link_of};
ghost use Rattle.demi_net.specs.Real.{real_link};

use crate::standard::is_standard;
use crate::{StreamIn, StreamOut};
use demi_core::Halt;
use std::alloc::Global;
use std::io;
use std::io::{ErrorKind, IsTerminal};
use std::net::{TcpListener, TcpStream};

// What listens at the address. Where standard error is a terminal, it is told which address that is, also where the system
// chose the port.
fn listen(rt: &HostRuntime, address: &str) -> Option<TcpListener> {
    let listener = TcpListener::bind(rt, address).ok()?;
    if is_standard(&listener) {
        return None;
    }
    if rt.stderr().is_terminal()
        && let Ok(address) = listener.local_addr()
    {
        let _ = eprintln!(rt; "demi: listening on {address}");
    }
    Some(listener)
}

// Whether an accept failed for what befell that one connection. The network's own errors are told by the next accept, and
// each takes its connection away.
fn is_of_one_connection(kind: ErrorKind) -> bool {
    matches!(
        kind,
        ErrorKind::ConnectionAborted
            | ErrorKind::ConnectionReset
            | ErrorKind::TimedOut
            | ErrorKind::HostUnreachable
            | ErrorKind::NetworkUnreachable
            | ErrorKind::NetworkDown
    )
}

// The next connection, or none at an error, to which 2^64 lost connections in a row count.
fn next_connection(listener: &TcpListener) -> Option<TcpStream> {
    'taking: for _call in 0..u64::MAX {
        match listener.accept() {
            Ok((stream, _client)) => return Some(stream),
            Err(error) if is_of_one_connection(error.kind()) => {}
            Err(_) => return None,
        }
    }
    None
}

// The link over a connection, on which small writes are sent at once.
fn link_over(stream: TcpStream) -> io::Result<(StreamIn, StreamOut)>
    ensures { IfOk result (λ link. link_of link ≡ real_link 0 0 0) }
{
    stream.set_nodelay(true)?;
    let source = StreamIn::from_connection(stream.try_clone()?);
    Ok((source, StreamOut::from_connection(stream)))
}

// The first `n` connections at the address, in the order in which they came. The room for all is taken first. Nobody
// listens there any more afterwards.
pub(crate) fn connections(
    rt: &HostRuntime,
    alloc: Global,
    address: &str,
    n: u32,
) -> Result<Vec<(StreamIn, StreamOut)>, Halt>
    ensures count { IfOk result (λ links. vec_len links ≡ n) }
    ensures fresh { IfOk result (λ links. map link_of links.items ≡ replicate n (real_link 0 0 0)) }
{
    let Ok(mut links) = Vec::with_capacity(alloc, n as usize) else {
        return Err(Halt::NoMemory);
    };
    let Some(listener) = listen(rt, address) else {
        return Err(Halt::Failed);
    };
    'taking: for _number in 0..n {
        let Some(stream) = next_connection(&listener) else {
            return Err(Halt::Failed);
        };
        let Ok(link) = link_over(stream) else {
            return Err(Halt::Failed);
        };
        links.push_reserved(link);
    }
    Ok(links)
}

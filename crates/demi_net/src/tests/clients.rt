// The clients of a test, each over a connection of its own.
use std::alloc::Global;
use std::io;
use std::io::{ErrorKind, Read, Write};
use std::net::{Shutdown, TcpStream};
use std::thread::sleep;
use std::time::Duration;

// A put under the key `a`, whose value of one byte is the client's own, and an end frame.
const REQUESTS: [u8; 14] = *b"\x01\x01\x00\x00\x00\x01a?\x03\x00\x00\x00\x00\x00";

// What the put is answered: stored as the first record, with its value.
const REPLY: [u8; 23] =
    *b"\x81\x00\x00\x00\x00\x00\x00\x00\x00\x01\x00\x00\x00\x00\x00\x00\x00\x01\x00\x00\x00\x01?";

// What is sent on, and never read by who answers.
const MORE: [u8; 65_536] = [0; 65_536];

// What a client sends.
pub(super) fn requests_of(client: u8) -> [u8; 14] {
    let mut bytes = REQUESTS;
    bytes[7] = client;
    bytes
}

// What a client is answered.
pub(super) fn reply_to(client: u8) -> [u8; 23] {
    let mut bytes = REPLY;
    bytes[22] = client;
    bytes
}

// A connection, as soon as somebody listens.
fn connect(rt: &HostRuntime, address: &str) -> io::Result<TcpStream> {
    for _ in 0..10_000 {
        match TcpStream::connect(rt, address) {
            Err(error) if error.kind() == ErrorKind::ConnectionRefused => {
                sleep(rt, Duration::from_millis(1));
            }
            ended => return ended,
        }
    }
    Err(io::Error::from(ErrorKind::TimedOut))
}

// A connection on which a client sent what it has to ask.
fn ask(rt: &HostRuntime, address: &str, client: u8) -> io::Result<TcpStream> {
    let mut stream = connect(rt, address)?;
    stream.write_all(&requests_of(client))?;
    Ok(stream)
}

// Whether a client reads its reply, and then the end.
fn hears(alloc: Global, stream: &mut TcpStream, client: u8) -> io::Result<bool> {
    let mut bytes = Vec::new(alloc);
    stream.read_to_end(&mut bytes)?;
    Ok(bytes.as_slice() == reply_to(client).as_slice())
}

// Sends on what nobody reads, in two parts with a pause between them: of a connection that is reset the second part fails.
fn send_on(rt: &HostRuntime, stream: &mut TcpStream) -> io::Result<()> {
    stream.write_all(&MORE)?;
    sleep(rt, Duration::from_millis(100));
    stream.write_all(&MORE)
}

// Four clients connect after each other and hear each what is due to it, the last one first. Number 0 asks and waits, number 1
// also shuts its writing side, number 2 sends on until its reply comes, and number 3 sends on after the end came and closes
// after all others.
pub(super) fn converse(rt: &HostRuntime, address: &str) -> io::Result<bool> {
    let alloc = rt.alloc();
    let mut plain = ask(rt, address, 0)?;
    let mut half_closed = ask(rt, address, 1)?;
    half_closed.shutdown(Shutdown::Write)?;
    let mut talking = ask(rt, address, 2)?;
    let mut late = ask(rt, address, 3)?;
    let mut heard = hears(alloc, &mut late, 3)?;
    send_on(rt, &mut late)?;
    send_on(rt, &mut talking)?;
    heard &= hears(alloc, &mut talking, 2)?;
    drop(talking);
    heard &= hears(alloc, &mut half_closed, 1)?;
    drop(half_closed);
    heard &= hears(alloc, &mut plain, 0)?;
    Ok(heard)
}

use std::io;
use std::io::{Read, Stdin};
use std::net::TcpStream;

// Where the bytes of a source come from.
#[derive(Drop)]
pub(crate) enum Inlet {
    Standard(Stdin),
    Connection(TcpStream),
}

impl Read for Inlet {
    fn read(&mut self, room: &mut [u8]) -> io::Result<usize> {
        match self {
            Inlet::Standard(stdin) => stdin.read(room),
            Inlet::Connection(stream) => stream.read(room),
        }
    }
}

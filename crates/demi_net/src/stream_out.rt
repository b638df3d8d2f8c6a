ghost use Rattle.std.specs.Prelude.{◌≡◌, None, Some, IfOk};
ghost use Rattle.demi_core.specs.Outside.{HasCause};

use crate::once::write_once;
use crate::outlet::Outlet;
use demi_core::{Failed, Sink};
use std::io::Stdout;
use std::net::{Shutdown, TcpStream};

/// Standard output, or what goes over a connection.
///
/// A write to a connection whose other side is gone fails, and no signal ends the program.
#[derive(Drop)]
pub struct StreamOut {
    outlet: Outlet,
    faults: u64,
}

impl StreamOut {
    /// Standard output. It took nothing yet.
    pub fn new(stdout: Stdout) -> StreamOut
        ensures written { ⟦<StreamOut as Sink>⟧.written result ≡ None }
        ensures faults { ⟦<StreamOut as Sink>⟧.faults result ≡ 0 }
    {
        StreamOut::from_outlet(Outlet::Standard(stdout))
    }

    /// What goes over a connection. It took nothing yet.
    pub fn from_connection(stream: TcpStream) -> StreamOut
        ensures written { ⟦<StreamOut as Sink>⟧.written result ≡ None }
        ensures faults { ⟦<StreamOut as Sink>⟧.faults result ≡ 0 }
    {
        StreamOut::from_outlet(Outlet::Connection(stream))
    }

    // It took nothing yet.
    fn from_outlet(outlet: Outlet) -> StreamOut
        ensures { result.faults ≡ 0 }
    {
        StreamOut { outlet, faults: 0 }
    }

    // How many faults there were.
    pub(crate) fn faults(&self) -> u64
        ensures { result ≡ self.now.faults }
    {
        self.faults
    }

    // What a write took. One that failed is a fault.
    fn counted(&mut self, taken: Option<usize>) -> Result<usize, Failed>
        ensures taken { IfOk result (λ count. taken ≡ Some count) }
        ensures cause { HasCause self.old.faults self.new.faults result }
    {
        match taken {
            Some(count) => Ok(count),
            None => {
                self.faults = self.faults.saturating_add(1);
                Err(Failed)
            }
        }
    }

    // Closes it: the other side of a connection is told that no more bytes come. Where that fails it is gone.
    pub(crate) fn close(self) {
        if let Outlet::Connection(stream) = self.outlet {
            let _ = stream.shutdown(Shutdown::Write);
        }
    }
}

impl Sink for StreamOut {
    ghost written = { λ s. None };

    ghost faults = { λ s. s.faults };

    ghost told_bytes = { λ s. tt };

    fn write(&mut self, piece: &[u8]) -> Result<usize, Failed> {
        let taken = write_once(&mut self.outlet, piece);
        self.counted(taken)
    }

    fn write_two(&mut self, first: &[u8], second: &[u8]) -> Result<usize, Failed> {
        let taken = self.outlet.write_two_once(first, second);
        self.counted(taken)
    }
}

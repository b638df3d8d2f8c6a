ghost use Rattle.std.specs.Prelude.{◌≡◌, [], ◌∷◌, IfOk, map, vec_len};
ghost use Rattle.demi_net.specs.Links.{link_of};
ghost use Rattle.demi_net.specs.Real.{real_link};

use crate::connections::connections;
use crate::once::write_once;
use crate::past::Past;
use crate::{FileLog, StreamIn, StreamOut};
use demi_core::{Failed, Halt, Site, World};
use std::alloc::Global;
use std::io::Stdout;

/// Standard input and output, standard error, the connections that come in at an address, and the files of the folder that
/// the program runs in.
///
/// A link or a log that is kept is closed: nothing else holds it. Not said: what the outside holds.
#[derive(Drop)]
pub struct RealWorld {
    rt: HostRuntime,
    faults: u64,
    print_faults: u64,
    past: Past,
}

// Prints the text, or a front of it where it fails.
fn print_whole(stdout: &mut Stdout, text: &[u8]) -> bool {
    let mut at = 0;
    'printing: while at < text.len() {
        match write_once(stdout, &text[at..]) {
            Some(count) => at += count,
            None => return false,
        }
    }
    true
}

// The link on standard input and output.
fn standard_link(rt: &HostRuntime, alloc: Global) -> Result<Vec<(StreamIn, StreamOut)>, Halt>
    ensures count { IfOk result (λ links. vec_len links ≡ 1) }
    ensures fresh { IfOk result (λ links. map link_of links.items ≡ real_link 0 0 0 ∷ []) }
{
    let Ok(mut links) = Vec::with_capacity(alloc, 1) else {
        return Err(Halt::NoMemory);
    };
    links.push_reserved((StreamIn::new(rt.stdin()), StreamOut::new(rt.stdout())));
    Ok(links)
}

impl RealWorld {
    ghost use Rattle.demi_net.specs.Real.{state_after};

    /// The world that the program was started in. It gave nothing yet, and had no fault.
    pub fn new(rt: HostRuntime) -> RealWorld
        ensures state { ⟦<RealWorld as World>⟧.state result ≡ state_after [] }
        ensures faults { ⟦<RealWorld as World>⟧.faults result ≡ 0 }
        ensures print_faults { ⟦<RealWorld as World>⟧.print_faults result ≡ 0 }
    {
        RealWorld {
            rt,
            faults: 0,
            print_faults: 0,
            past: Past::new(),
        }
    }
}

impl World for RealWorld {
    ghost use Rattle.demi_net.specs.Real.{state_after};

    type In = StreamIn;

    type Out = StreamOut;

    type Log = FileLog;

    ghost faults = { λ w. w.faults };

    ghost print_faults = { λ w. w.print_faults };

    ghost state = { λ w. state_after w.past.calls };

    // Of its sources it tells nothing but what their links tell.
    ghost next_source = { λ w number source. Unit {0} };

    ghost kept_source = { λ w number source. Unit {0} };

    /// One link on standard input and output; or the first `n` connections at an address, which is an IP address or a host's
    /// name, and a port, in the order in which they came. It waits for them, and then listens no more. Small writes on a
    /// connection are sent at once. Where standard error is a terminal, it is told there at which address it listens.
    ///
    /// `NoMemory`; or `Failed` where the address cannot be listened at, also because a standard stream is closed, and where the
    /// system has no room for one more connection. A connection that is lost before it is taken is passed over, and the
    /// next one is taken in its place; one that is lost later is a link whose ends fail.
    fn links(
        &mut self,
        alloc: Global,
        site: &Site,
        n: u32,
    ) -> Result<Vec<(StreamIn, StreamOut)>, Halt> {
        let links = match site {
            Site::Standard => standard_link(&self.rt, alloc),
            Site::Tcp(address) => connections(&self.rt, alloc, address.as_str(), n),
        };
        match links {
            Ok(_) => self.past = self.past.links_given(n),
            Err(Halt::Failed) => self.faults = self.faults.saturating_add(1),
            Err(Halt::NoMemory) => {}
        }
        links
    }

    /// Closes the link. A connection is told that no more bytes come, and what still comes over it is dropped, for about two
    /// seconds and a mebibyte at most: so it is not reset while replies are on their way.
    fn keep_link(&mut self, number: u32, source: StreamIn, sink: StreamOut) {
        self.past = self.past.link_kept(
            number,
            source.given_bytes(),
            source.faults(),
            sink.faults(),
        );
        sink.close();
        source.close(&self.rt);
    }

    /// The file of that name, made empty where there is none. A folder, a file that may not be read and written, a
    /// name in a folder that is not there, a file that is open as a log already, here or in another process, a file above
    /// 2^40 bytes, and any file while a standard stream is closed give `Failed`.
    fn log(&mut self, alloc: Global, name: &str) -> Result<FileLog, Halt> {
        match FileLog::open(&self.rt, alloc, name) {
            Ok(log) => {
                self.past = self.past.log_given(name.as_bytes(), log.held_bytes());
                Ok(log)
            }
            Err(Halt::Failed) => {
                self.faults = self.faults.saturating_add(1);
                Err(Halt::Failed)
            }
            Err(Halt::NoMemory) => Err(Halt::NoMemory),
        }
    }

    fn keep_log(&mut self, name: &str, log: FileLog) {
        self.past = self
            .past
            .log_kept(name.as_bytes(), log.held_bytes(), log.faults());
    }

    /// Prints the text and a newline on standard error. A fault there has no place to be told and is passed over.
    fn warn(&mut self, text: &str) {
        let _ = eprintln!(self.rt; "{text}");
        self.past = self.past.text_warned(text.as_bytes());
    }

    fn say(&mut self, text: &str) -> Result<(), Failed> {
        let mut stdout = self.rt.stdout();
        if !print_whole(&mut stdout, text.as_bytes()) {
            self.print_faults = self.print_faults.saturating_add(1);
            self.past = self.past.text_said(&text.as_bytes()[..0]);
            return Err(Failed);
        }
        self.past = self.past.text_said(text.as_bytes());
        Ok(())
    }
}

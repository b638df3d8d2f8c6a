//! The program `demi`, a store that takes framed requests and appends each put to a log.
//!
//! [`run`] is all that it does, over any world: what it promises are its clauses. Below it, `piping` serves a link in a session
//! of `demi_server`, `tool` does what needs no link, as to list a log, and `reporting` gives each outcome its exit status
//! and its text. The world that `main` makes is that of `demi_net`: the standard streams, TCP connections, and files.
//! Not promised: what a real stream or file holds, that memory is found, and that threads can be started.
#![tactic(auto)]

mod checking;
mod head;
mod heads;
mod opening;
mod outcome;
mod piping;
mod printing;
mod reading;
mod reporting;
mod running;
mod task;
#[cfg(test)]
mod tests;
mod tool;

use crate::running::run;
use demi_core::{NoMemory, World};
use demi_net::RealWorld;
use std::env;
use std::io::ErrorKind;
use std::process::ExitCode;

fn main(rt: HostRuntime) -> ExitCode {
    let mut world = RealWorld::new(rt);
    // The ends of a session are for contracts alone.
    let mut ends = None;
    match words(&rt) {
        Ok(words) => ExitCode::from(run(&rt, rt.alloc(), &words, &mut world, &mut ends)),
        Err(NoMemory) => {
            world.warn("demi: out of memory");
            ExitCode::from(5)
        }
    }
}

// The words after the program's name. Where one is no text there are none, and those are no command either.
fn words(rt: &HostRuntime) -> Result<Vec<String>, NoMemory> {
    let mut words = Vec::new(rt.alloc());
    match env::args(rt) {
        Ok(args) => {
            for word in args.skip(1) {
                words.push(word)?;
            }
        }
        Err(error) if error.kind() == ErrorKind::OutOfMemory => return Err(NoMemory),
        Err(_) => {}
    }
    Ok(words)
}

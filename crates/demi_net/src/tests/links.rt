// Links over connections: what no clause can say of them.
ghost use Rattle.std.specs.Prelude.{ℕ, ◌<◌, IsTrue, vec_len};

use super::clients::{converse, reply_to, requests_of};
use crate::RealWorld;
use demi_core::{Sink, Site, Source, World};
use std::alloc::{AllocError, Global};
use std::net::TcpListener;
use std::test::Fail;
use std::{process, thread};

// An address of this process alone, so that tests that run beside each other do not meet.
fn own_address(rt: &HostRuntime, alloc: Global) -> Result<String, AllocError> {
    let id = process::id(rt.process());
    let [_, high, middle, low] = id.to_be_bytes();
    let high = 1 + high % 64;
    format!(in alloc; "127.{high}.{middle}.{low}:4100")
}

// Whether a client's requests come.
fn asks<S: Source>(source: &mut S, client: u8) -> bool {
    let mut bytes = [0u8; 14];
    let mut at = 0;
    'asking: while at < bytes.len() {
        match source.read(&mut bytes[at..]) {
            Ok(count) if count > 0 => at += count,
            _ => return false,
        }
    }
    bytes == requests_of(client)
}

// Whether a client's reply was taken, whose head and value are two pieces.
fn answers<O: Sink>(sink: &mut O, client: u8) -> bool {
    let bytes = reply_to(client);
    let mut at = 0;
    'answering: while at < bytes.len() {
        let (head, value) = bytes[at..].split_at((bytes.len() - at) / 2);
        match sink.write_two(head, value) {
            Ok(count) => at += count,
            Err(_) => return false,
        }
    }
    true
}

// Whether each link is its own client's, the last one first. The world keeps all.
fn serve<W: World>(world: &mut W, mut links: Vec<(W::In, W::Out)>) -> bool
    requires few { vec_len links < 256 }
    requires given { (number : ℕ) → number < vec_len links → IsTrue ((W.state world.old).owes_link number) }
{
    let mut served = true;
    'serving: while let Some((mut source, mut sink)) = links.pop() {
        let client = links.len() as u8;
        served &= asks(&mut source, client) && answers(&mut sink, client);
        world.keep_link(u32::from(client), source, sink);
    }
    links.destroy_empty();
    served
}

#[test]
fn each_client_reads_its_whole_reply(rt: HostRuntime) -> Result<(), Fail> {
    let alloc = rt.alloc();
    let address = own_address(&rt, alloc)?;
    let site = Site::Tcp(address.clone()?);
    let mut world = RealWorld::new(rt);
    let Ok(clients) = thread::spawn(&rt, move || converse(&rt, address.as_str())) else {
        return Err(Fail::from("no thread"));
    };
    let Ok(links) = world.links(alloc, &site, 4) else {
        return Err(Fail::from("no links"));
    };
    assert!(rt; serve(&mut world, links));
    assert!(rt; matches!(clients.join(&rt), Ok(true)));
    Ok(())
}

#[test]
fn an_address_where_it_cannot_listen_is_refused(rt: HostRuntime) -> Result<(), Fail> {
    let alloc = rt.alloc();
    let taken = own_address(&rt, alloc)?;
    let _listener = TcpListener::bind(&rt, taken.as_str())?;
    let mut world = RealWorld::new(rt);
    for address in ["", "127.0.0.1", taken.as_str()] {
        let site = Site::Tcp(String::from_str(alloc, address)?);
        assert!(rt; world.links(alloc, &site, 1).is_err(), "at {address}");
    }
    Ok(())
}

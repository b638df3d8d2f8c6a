ghost use Rattle.std.specs.Prelude.{◌≡◌, ◌<◌, ◌≤◌, ◌^◌, All, IfOk, length, map};
ghost use Rattle.demi_audit.specs.Generator.{input_of, inputs};

use crate::draws::{Draws, write_drawn};
use demi_core::NoMemory;
use demi_frame::{Request, write_request};
use std::alloc::Global;

// The input of one link. All requests are drawn, and those of the other links are left out.
fn generate_one(
    alloc: Global,
    seed: u64,
    links: u32,
    count: u32,
    link: u32,
) -> Result<Vec<u8>, NoMemory>
    requires { 0 < links }
    ensures { IfOk result (λ v. v.items ≡ input_of seed links count link) }
{
    let mut input = Vec::new(alloc);
    let mut draws = Draws { state: seed };
    for i in 0..count {
        let number = draws.below_64();
        let kind = draws.below_4();
        let length = draws.below_64();
        if i % links == link {
            write_drawn(alloc, &mut input, number, kind, length)?;
        }
    }
    write_request(alloc, &mut input, &Request::End)?;
    Ok(input)
}

/// The inputs of so many links, from 1 to 16: `count` random requests, at most 1,000,000, that are dealt to the links in
/// turn, and an end frame on each. A number `seed` always gives the same inputs.
///
/// A request is a get in one of four cases, else a put of at most 63 bytes; there are 64 keys, `k00` to `k63`.
/// `NoMemory` is its only error.
pub fn generate(alloc: Global, seed: u64, links: u32, count: u32) -> Result<Vec<Vec<u8>>, NoMemory>
    requires some { 1 ≤ links }
    requires most { links ≤ 16 }
    requires count { count ≤ 1000000 }
    ensures inputs { IfOk result (λ all. map (λ v. v.items) all.items ≡ inputs seed links count) }
    ensures small { IfOk result (λ all. All (λ v. length v.items ≤ 2 ^ 34) all.items) }
{
    let mut all = Vec::new(alloc);
    for link in 0..links {
        let input = generate_one(alloc, seed, links, count, link)?;
        all.push(input)?;
    }
    Ok(all)
}

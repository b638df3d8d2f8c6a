// Random draws: the same number always gives the same ones.
ghost use Rattle.std.specs.Prelude.{◌≡◌, ◌<◌, ◌+◌, ◌%◌, ◌++◌, ◌^◌, OnOk, IfOk, replicate};
ghost use Rattle.demi_spec.specs.Request.{spelling};
ghost use Rattle.demi_audit.specs.Generator.{after_draw, drawn, key_numbered, request_by};

use demi_core::NoMemory;
use demi_frame::{Key, Request, write_request};
use std::alloc::Global;

/// A source of random draws.
#[derive(Clone, Copy)]
pub(crate) struct Draws {
    pub(crate) state: u64,
}

impl Draws {
    /// A number below 2^31.
    pub(crate) fn draw(&mut self) -> u64
        ensures state { self.new.state ≡ after_draw self.old.state }
        ensures drawn { result ≡ drawn self.old.state }
        ensures small { result < 2 ^ 31 }
    {
        self.state = self
            .state
            .wrapping_mul(6_364_136_223_846_793_005)
            .wrapping_add(1_442_695_040_888_963_407);
        self.state / 0x2_0000_0000
    }

    /// A number below 64, by the next draw.
    pub(crate) fn below_64(&mut self) -> u8
        ensures state { self.new.state ≡ after_draw self.old.state }
        ensures drawn { result ≡ drawn self.old.state % 64 }
        ensures small { result < 64 }
    {
        (self.draw() % 64) as u8
    }

    /// A number below 4, by the next draw.
    pub(crate) fn below_4(&mut self) -> u8
        ensures state { self.new.state ≡ after_draw self.old.state }
        ensures drawn { result ≡ drawn self.old.state % 4 }
        ensures small { result < 4 }
    {
        (self.draw() % 4) as u8
    }
}

// The key with this number.
fn key_numbered(number: u8) -> Key
    requires { number < 64 }
    ensures { result.items ≡ key_numbered number }
{
    let mut key = Key::new();
    let _ = key.try_extend_from_slice(&[b'k', b'0' + number / 10, b'0' + number % 10]);
    key
}

// A value of so many bytes, all of which are the letter of this number.
fn value_numbered(alloc: Global, number: u8, count: u8) -> Result<Vec<u8>, NoMemory>
    ensures { IfOk result (λ v. v.items ≡ replicate count (97 + number % 26)) }
{
    let mut value = Vec::new(alloc);
    value.resize(count as usize, b'a' + number % 26)?;
    Ok(value)
}

/// Appends the request that three draws gave.
pub(crate) fn write_drawn(
    alloc: Global,
    out: &mut Vec<u8>,
    number: u8,
    kind: u8,
    count: u8,
) -> Result<(), NoMemory>
    requires number { number < 64 }
    requires count { count < 64 }
    ensures { OnOk result (out.new.items ≡ out.old.items ++ spelling (request_by number kind count)) }
{
    let key = key_numbered(number);
    if kind == 0 {
        return write_request(alloc, out, &Request::Get { key });
    }
    let value = value_numbered(alloc, number, count)?;
    write_request(alloc, out, &Request::Put { key, value })
}

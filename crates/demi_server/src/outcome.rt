//! How a session ends, by how its links ended.
ghost use Rattle.std.specs.Prelude.{◌≡◌, ◌≢◌, ◌≤◌, cond, length, nat_lt};
ghost use Rattle.demi_link.specs.declared.phase.Cause.TheVariants.{Lost};
ghost use Rattle.demi_server.specs.Outcomes.{NoneLost, outcome_by, rank_of, told_of};

use demi_link::Cause;

/// How a session ended. Of several it is the first in this order, but for `Served`, and of one kind that of the lowest link.
#[derive(Clone, Copy, Debug, PartialEq, Eq)]
pub enum Outcome {
    /// Each link ended with its input or with its end frame, and each of its requests was answered.
    Served,
    /// The log is none: the place of the first byte that is wrong.
    BadLog(u64),
    /// Memory was refused.
    NoMemory,
    /// The log failed.
    LogFault,
    /// A read of this link failed.
    ReadFault(u32),
    /// A write of this link failed.
    WriteFault(u32),
    /// A frame of this link was refused, with this code from 1 to 5.
    Refused(u32, u8),
}

// What one link tells, where no other tells anything.
fn told_by(link: u32, cause: Cause) -> Outcome
    requires { cause ≢ Lost }
    ensures { result ≡ told_of link cause }
{
    match cause {
        Cause::Clean | Cause::Bye => Outcome::Served,
        Cause::NoMemory => Outcome::NoMemory,
        Cause::LogFault => Outcome::LogFault,
        Cause::ReadFault => Outcome::ReadFault(link),
        Cause::WriteFault => Outcome::WriteFault(link),
        Cause::Refused(code) => Outcome::Refused(link, code),
        Cause::Lost => unreachable!(),
    }
}

// How many kinds of outcomes stand before this one's.
fn rank(outcome: Outcome) -> u32
    ensures is { result ≡ rank_of outcome }
{
    match outcome {
        Outcome::BadLog(_) => 0,
        Outcome::NoMemory => 1,
        Outcome::LogFault => 2,
        Outcome::ReadFault(_) => 3,
        Outcome::WriteFault(_) => 4,
        Outcome::Refused(_, _) => 5,
        Outcome::Served => 6,
    }
}

// The one of the lower kind, and of one kind the first.
fn lower(first: Outcome, second: Outcome) -> Outcome
    ensures { result ≡ cond (nat_lt (rank_of second) (rank_of first)) second first }
{
    if rank(second) < rank(first) {
        second
    } else {
        first
    }
}

/// The outcome of a session whose links, by place, ended so.
pub fn outcome_of(causes: &[Cause]) -> Outcome
    requires few { length causes.now ≤ 16 }
    requires found { NoneLost causes.now }
    ensures { result ≡ outcome_by causes.now }
{
    let mut outcome = Outcome::Served;
    for k in 0..causes.len() {
        outcome = lower(outcome, told_by(k as u32, causes[k]));
    }
    outcome
}

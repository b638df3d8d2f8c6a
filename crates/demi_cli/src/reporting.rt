ghost use Rattle.std.specs.Prelude.{◌≡◌, ◌≢◌, ◌+◌, ◌++◌, ◌<◌, ◌≤◌, [], ◌∷◌, ℕ, length};
ghost use Rattle.std.specs.Fmt.{decimal};
ghost use Rattle.arrayvec.specs.ArrayString.{array_string_len};
ghost use Rattle.demi_core.specs.World.{SameSources};
ghost use Rattle.demi_cli.specs.Outcome.{status_of, text_of, reported, digit};

use crate::outcome::Outcome;
use arrayvec::ArrayString;
use demi_core::World;
use itoa::Buffer;

// How many bytes a warning has at most.
const MAX_TEXT_BYTES: usize = 128;

// The status of an outcome.
fn status(outcome: Outcome) -> u8
    ensures { result ≡ status_of outcome }
{
    match outcome {
        Outcome::Done => 0,
        Outcome::Usage | Outcome::NotYet => 1,
        Outcome::ReadFault => 2,
        Outcome::WriteFault | Outcome::PrintFault => 3,
        Outcome::LogFault => 4,
        Outcome::NoMemory => 5,
        Outcome::Refused(_) => 6,
        Outcome::BadLog(_) => 7,
        Outcome::CannotOpen => 8,
        Outcome::BadReply(_, _) | Outcome::BadEntry(_) => 9,
    }
}

// The text of a refused frame.
fn refused_text(code: u8) -> &'static str
    ensures text { result.now ≡ text_of (Outcome.Refused code) }
    ensures short { length result.now ≤ 128 }
{
    match code {
        1 => "demi: link 0 refused with code 1",
        2 => "demi: link 0 refused with code 2",
        3 => "demi: link 0 refused with code 3",
        4 => "demi: link 0 refused with code 4",
        _ => "demi: link 0 refused with code 5",
    }
}

// The text of a log whose first bad byte is this.
fn bad_log_text(at: u64) -> ArrayString<MAX_TEXT_BYTES>
    ensures { result.bytes ≡ text_of (Outcome.BadLog at) }
{
    let mut text = ArrayString::new();
    text.push_str("demi: bad log at byte ");
    text.push_str(Buffer::new().format(at));
    text
}

// The text of a transcript that is inconsistent at this reply.
fn bad_reply_text(link: u32, index: u64) -> ArrayString<MAX_TEXT_BYTES>
    ensures { result.bytes ≡ text_of (Outcome.BadReply link index) }
{
    let mut text = ArrayString::new();
    text.push_str("demi: link ");
    text.push_str(Buffer::new().format(link));
    text.push_str(" reply ");
    text.push_str(Buffer::new().format(index));
    text.push_str(" is inconsistent");
    text
}

// The text of a transcript that is inconsistent at this record.
fn bad_entry_text(version: u64) -> ArrayString<MAX_TEXT_BYTES>
    ensures { result.bytes ≡ text_of (Outcome.BadEntry version) }
{
    let mut text = ArrayString::new();
    text.push_str("demi: record ");
    text.push_str(Buffer::new().format(version));
    text.push_str(" is inconsistent");
    text
}

// The text of an outcome but those with a number.
fn text(outcome: Outcome) -> &'static str
    requires log { (at : ℕ) → outcome ≢ Outcome.BadLog at }
    requires reply { (link index : ℕ) → outcome ≢ Outcome.BadReply link index }
    requires entry { (version : ℕ) → outcome ≢ Outcome.BadEntry version }
    ensures text { result.now ≡ text_of outcome }
    ensures short { length result.now ≤ 128 }
{
    match outcome {
        Outcome::Done | Outcome::BadLog(_) | Outcome::BadReply(_, _) | Outcome::BadEntry(_) => "",
        Outcome::Usage => "usage: demi pipe, serve, bench, check or log",
        Outcome::ReadFault => "demi: read fault on link 0",
        Outcome::WriteFault => "demi: write fault on link 0",
        Outcome::PrintFault => "demi: write fault on output",
        Outcome::LogFault => "demi: log fault",
        Outcome::NoMemory => "demi: out of memory",
        Outcome::Refused(code) => refused_text(code),
        Outcome::CannotOpen => "demi: cannot open",
        Outcome::NotYet => "demi: serve and bench are not there yet",
    }
}

/// Warns of an outcome, where there is something to say, and gives its exit status.
pub fn report<W: World>(world: &mut W, outcome: Outcome) -> u8
    ensures status { result ≡ status_of outcome }
    ensures warned { W.state world.new ≡ reported outcome (W.state world.old) }
    ensures kept_sources { SameSources (W.kept_source world.old) (W.kept_source world.new) }
    ensures faults { W.faults world.new ≡ W.faults world.old }
    ensures print_faults { W.print_faults world.new ≡ W.print_faults world.old }
{
    match outcome {
        Outcome::Done => {}
        Outcome::BadLog(at) => world.warn(bad_log_text(at).as_str()),
        Outcome::BadReply(link, index) => world.warn(bad_reply_text(link, index).as_str()),
        Outcome::BadEntry(version) => world.warn(bad_entry_text(version).as_str()),
        _ => world.warn(text(outcome)),
    }
    status(outcome)
}

ghost use Rattle.std.specs.Prelude.{◌≡◌, ◌≢◌};
ghost use Rattle.demi_cli.specs.Ended.{refused_as};

use demi_logq::LogRefusal;

/// How a command ended. Each outcome but [`Outcome::Done`] has its warning, and each its exit status.
#[derive(Clone, Copy, Debug, PartialEq, Eq)]
pub enum Outcome {
    /// All is done: the input was read to its end frame or to its end and answered, or each line of a log was said. Status 0.
    Done,
    /// The words are no command. Status 1.
    Usage,
    /// The source of the link failed. Status 2.
    ReadFault,
    /// The sink of the link failed. Status 3.
    WriteFault,
    /// The output failed on which lines are said. Status 3.
    PrintFault,
    /// The log failed. Status 4.
    LogFault,
    /// Memory was refused. Status 5.
    NoMemory,
    /// The input has a refused frame, with its code from 1 to 5; all before it is answered. Status 6.
    Refused(u8),
    /// The log is no text of records, or the transcript is none; this is the offset of its first bad byte. Status 7.
    BadLog(u64),
    /// The world gave no log or no link. Status 8.
    CannotOpen,
    /// The words are those of a command that is not there yet. Status 1.
    NotYet,
    /// The transcript is inconsistent at this reply, by its link and its index there, both from 0. Status 9.
    BadReply(u32, u64),
    /// The transcript is inconsistent at this record, by its number from 1. Status 9.
    BadEntry(u64),
}

/// The outcome of a log that is refused at its opening.
pub fn refused(refusal: LogRefusal) -> Outcome
    requires { (refusal ≢ LogRefusal.Full) × (refusal ≢ LogRefusal.Broken) }
    ensures { result ≡ refused_as refusal }
{
    match refusal {
        LogRefusal::Failed => Outcome::LogFault,
        LogRefusal::NoMemory => Outcome::NoMemory,
        LogRefusal::BadLog(at) => Outcome::BadLog(at),
        // No opening is refused so.
        LogRefusal::Full | LogRefusal::Broken => unreachable!(),
    }
}

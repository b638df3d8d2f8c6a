/// How a copy ended.
#[derive(Clone, Copy, PartialEq, Eq, Debug)]
pub enum Outcome {
    /// The input ended, and all of it was written.
    Whole,
    /// A port refused an operation: it was broken, closed or stopped before. No run of this program comes to it.
    Refused,
    /// A read failed. All that came before it was written.
    ReadFault,
    /// A write failed. What was written is a front of what was read.
    WriteFault,
    /// Memory was refused before anything was read.
    NoMemory,
}

impl Outcome {
    /// The exit status, which is another for each outcome.
    pub fn status(self) -> u8 {
        match self {
            Outcome::Whole => 0,
            Outcome::Refused => 1,
            Outcome::ReadFault => 2,
            Outcome::WriteFault => 3,
            Outcome::NoMemory => 5,
        }
    }

    /// What standard error is told, where the copy is not whole.
    pub fn text(self) -> Option<&'static str> {
        match self {
            Outcome::Whole => None,
            Outcome::Refused => Some("a port refused an operation"),
            Outcome::ReadFault => Some("the input failed"),
            Outcome::WriteFault => Some("the output failed"),
            Outcome::NoMemory => Some("out of memory"),
        }
    }
}

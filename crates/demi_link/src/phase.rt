//! Where a link stands between polls.
use demi_port_core::QToken;
use demi_sga::{AppSga, LentSga};
use demi_store::{StoreAnswer, StoreOp};

/// Why a link is over.
#[derive(Clone, Copy, Debug, PartialEq, Eq)]
pub enum Cause {
    /// Its input ended behind a request, or before the first.
    Clean,
    /// It answered an end frame.
    Bye,
    /// It answered a refused end, with this code from 1 to 5.
    Refused(u8),
    /// A read failed.
    ReadFault,
    /// A write failed.
    WriteFault,
    /// The log of the store failed.
    LogFault,
    /// The store was refused memory.
    NoMemory,
    /// Its worker lost it: a token was spent or unknown, a port was stopped or closed, or numbers were used up.
    Lost,
}

/// What a request asks, without its key and value.
#[derive(Clone, Copy, Debug, PartialEq, Eq)]
pub enum Kind {
    Put,
    Get,
    /// The end frame.
    Bye,
    /// A refused end, with its code.
    Refused(u8),
}

/// A reply to what the store answered, but for its worker and its head.
pub struct Draft {
    pub answer: StoreAnswer,
    pub sequence: u64,
    /// The bytes that follow its head, where there are any.
    pub body: Option<AppSga>,
}

/// Where a link stands between polls, with the tokens and halves that it has there.
pub enum Phase {
    /// It asks its decoder.
    Reading,
    /// It waits for a pop.
    Popping(QToken),
    /// It has a request at hand, and no buffers for it.
    Asking(Kind),
    /// It has an operation of the store at hand, with the lent halves of its value.
    Holding(Option<LentSga>, StoreOp),
    /// It waits for the store, which was asked with this sequence number, and has the lent halves of the value.
    Waiting(QToken, u64, Option<LentSga>),
    /// It has a reply at hand, and no buffer for its head.
    Replying(Draft),
    /// It has the array of a reply at hand. Behind it the link is over where a cause says why.
    Sending(AppSga, Option<Cause>),
    /// It waits for the push of a reply. Behind it the link is over where a cause says why.
    Pushing(QToken, Option<Cause>),
    /// It has ended.
    Over(Cause),
    /// It is in a poll.
    Between,
}

//! What is redeemed.
use demi_logq::LogOut;
use demi_memq::MemOut;
use demi_port_core::{Law, Place};
use demi_streamq::{RxOut, TxOut};

/// The outcome of an operation, by the kind of its port.
pub enum QResult<X: Law> {
    Mem(MemOut),
    Service(X::Out),
    Log(LogOut),
    Rx(RxOut),
    Tx(TxOut),
}

/// What a try to redeem a token gives.
pub enum Answer<X: Law> {
    /// The operation's place and outcome. The token is redeemed.
    Ready(Place, QResult<X>),
    /// The outcome is still to come.
    NotYet,
    /// The token was redeemed before.
    Spent,
    /// There is no such port, or the port has given no such token.
    Unknown,
}

/// What a try of several tokens gives, with the index of the first that is not `NotYet`.
pub enum Any<X: Law> {
    /// The list was empty.
    NoTokens,
    /// This token's operation: its place and outcome. The token is redeemed.
    Ready(usize, Place, QResult<X>),
    /// Each was still to come.
    NotYet,
    /// This token was redeemed before.
    Spent(usize),
    /// Of this token there is no such port, or its port has given no such token.
    Unknown(usize),
}

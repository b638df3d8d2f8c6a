//! Why a call submitted nothing.
use demi_sga::AppSga;

/// Why nothing was pushed. The array comes back.
pub enum PushRefused {
    /// The descriptor names nothing that takes a push.
    BadQd(AppSga),
    /// No token could be had.
    TokensFull(AppSga),
}

/// Why an operation was not submitted.
#[derive(Clone, Copy, Debug, PartialEq, Eq, Drop)]
pub enum PopRefused {
    /// The descriptor names nothing that takes this operation.
    BadQd,
    /// A receiving port gives 1 to 4,096 bytes at a time.
    BadSize,
    /// No token could be had.
    TokensFull,
}

/// No token could be had.
#[derive(Clone, Copy, Debug, PartialEq, Eq, Drop)]
pub struct TokensFullNow;

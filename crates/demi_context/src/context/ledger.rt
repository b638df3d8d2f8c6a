//! What a worker's calls came to, as contracts see it.
use std::marker::Model;

/// What a worker's calls came to. No value of it is made: contracts alone see it.
#[derive(Drop)]
pub struct Ledger {}

impl Model for Ledger {
    ghost use Rattle.demi_context.specs.ContextLedgers.{LedgerValue, no_ledger};

    ghost Value = { LedgerValue };

    ghost view = { λ _. no_ledger };
}

/// The same, with the link of the call at hand.
#[derive(Drop)]
pub(crate) struct Entry {}

impl Model for Entry {
    ghost use Rattle.demi_context.specs.ContextLedgers.{Entry as EntryValue, no_ledger};

    ghost Value = { EntryValue };

    ghost view = { λ _. record { ledger = no_ledger; link = 0 } };
}

/// The same, with the token that is tried.
#[derive(Drop)]
pub(crate) struct Trying {}

impl Model for Trying {
    ghost use Rattle.demi_context.specs.ContextLedgers.{Trying as TryingValue, no_ledger};

    ghost Value = { TryingValue };

    ghost view = { λ _. record { entry = record { ledger = no_ledger; link = 0 }; token = record { port = 0; token = record { 0 = 0 } } } };
}

// Where in a log text the value of each key stands.
ghost use Rattle.std.specs.Prelude.{◌≡◌, List, ℕ, None, Some, OnOk, bytes_eq, cond};
ghost use Rattle.demi_audit.specs.TextStores.{span_of};

use demi_core::NoMemory;
use std::alloc::Global;
use std::collections::HashMap;

/// Where a value stands in a text.
#[derive(Clone, Copy)]
pub(crate) struct Span {
    pub(crate) from: usize,
    pub(crate) size: usize,
}

/// The keys of the records of a text, each with the place of its last record's value.
#[derive(Drop)]
pub(crate) struct Values {
    pub(crate) spans: HashMap<Vec<u8>, Span>,
}

impl Values {
    pub(crate) fn new(alloc: Global) -> Values
        ensures { (key : List ℕ) → span_of result key ≡ None }
    {
        Values {
            spans: HashMap::new(alloc),
        }
    }

    /// Where the value of the key stands.
    pub(crate) fn get(&self, key: &[u8]) -> Option<Span>
        ensures { result ≡ span_of self.now key.now }
    {
        self.spans.get(key).copied()
    }

    /// The value of the key stands there from now on.
    pub(crate) fn set(&mut self, alloc: Global, key: &[u8], span: Span) -> Result<(), NoMemory>
        ensures { OnOk result ((other : List ℕ) → span_of self.new other ≡ cond (bytes_eq key.now other) (Some span) (span_of self.old other)) }
    {
        self.spans.insert(key.to_vec(alloc)?, span)?;
        Ok(())
    }
}

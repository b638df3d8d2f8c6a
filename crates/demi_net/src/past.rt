//! What the real world did, which only clauses see.
ghost use Rattle.std.specs.Prelude.{◌≡◌, List};
ghost use Rattle.std.specs.Borrow.{ftrue};
ghost use Rattle.demi_net.specs.Real.{Call, calls_code};

use std::marker::{Model, PhantomData};

/// The calls that the world answered, the last one first. It takes no bytes.
#[derive(Drop)]
pub struct Past {
    marker: PhantomData<u8>,
    pub ghost calls: { List Call } by { calls_code },
}

impl Model for Past {
    ghost also_owns = { λ _. ftrue };
}

impl Past {
    ghost use Rattle.std.specs.Prelude.{[], ◌∷◌};
    ghost use Rattle.demi_net.specs.Real.{link_kept, links_given, log_given, log_kept, text_said, text_warned};

    // No call yet.
    pub(crate) fn new() -> Past
        ensures { result.calls ≡ [] }
    {
        Past::of()
    }

    // So many links were given, all fresh.
    pub(crate) fn links_given(&self, count: u32) -> Past
        ensures { result.calls ≡ links_given count ∷ self.now.calls }
    {
        Past::told(self, b"", count as u64, 0, 0, 0)
    }

    // A link was kept under its number.
    pub(crate) fn link_kept(
        &self,
        number: u32,
        taken: u64,
        read_faults: u64,
        write_faults: u64,
    ) -> Past
        ensures { result.calls ≡ link_kept number taken read_faults write_faults ∷ self.now.calls }
    {
        Past::told(self, b"", number as u64, taken, read_faults, write_faults)
    }

    // A log was given under its name.
    pub(crate) fn log_given(&self, name: &[u8], held: u64) -> Past
        ensures { result.calls ≡ log_given name.now held ∷ self.now.calls }
    {
        Past::told(self, name, 0, held, 0, 0)
    }

    // A log was kept under its name.
    pub(crate) fn log_kept(&self, name: &[u8], held: u64, faults: u64) -> Past
        ensures { result.calls ≡ log_kept name.now held faults ∷ self.now.calls }
    {
        Past::told(self, name, 0, held, faults, 0)
    }

    // A warning.
    pub(crate) fn text_warned(&self, text: &[u8]) -> Past
        ensures { result.calls ≡ text_warned text.now ∷ self.now.calls }
    {
        Past::told(self, text, 0, 0, 0, 0)
    }

    // A printed text.
    pub(crate) fn text_said(&self, text: &[u8]) -> Past
        ensures { result.calls ≡ text_said text.now ∷ self.now.calls }
    {
        Past::told(self, text, 0, 0, 0, 0)
    }

    // These calls.
    fn of() -> Past
        ghost known: { List Call }
        ensures { result.calls ≡ known }
    {
        Past {
            marker: PhantomData,
        }
    }

    // The calls that its caller names by what it passes.
    fn told(
        _past: &Past,
        _text: &[u8],
        _number: u64,
        _bytes: u64,
        _faults: u64,
        _more_faults: u64,
    ) -> Past
        ghost known: { List Call }
        ensures { result.calls ≡ known }
    {
        Past::of()
    }
}

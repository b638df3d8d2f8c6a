//! A value that only contracts see.
ghost use Rattle.std.specs.Prelude.{◌≡◌};
ghost use base.Fml.{ftrue};

use std::marker::{Model, PhantomData};

/// A value that only contracts see: an engine keeps in it what it was served, and what it added.
/// It takes no bytes. Who makes it says in its proof what it is.
pub struct Mark<T> {
    marker: PhantomData<T>,
    pub ghost value: { T },
}

impl<T> Model for Mark<T> {
    ghost also_owns = { λ _. ftrue };
}

// It holds nothing at run time.
unsafe impl<T> Send for Mark<T> {}

// Nor is there anything to share.
unsafe impl<T> Sync for Mark<T> {}

impl<T> Mark<T> {
    fn of() -> Mark<T>
        ghost known: { T }
        ensures { result.value ≡ known }
    {
        Mark {
            marker: PhantomData,
        }
    }

    /// A value that is made of these two.
    pub fn from<A, B>(_first: &A, _second: &B) -> Mark<T>
        ghost known: { T }
        ensures { result.value ≡ known }
    {
        Mark::of()
    }
}

impl<T> Drop for Mark<T> {
    fn drop(self) {
        let Mark { marker: _ } = self;
    }
}

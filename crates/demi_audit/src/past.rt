// Which record of a log has a key last, among the first so many.
ghost use Rattle.std.specs.Prelude.{◌≡◌, ◌+◌, ◌<◌, ◌≤◌, ℕ, List, [], ◌∷◌, ◌++◌, length, IfOk, OnOk};
ghost use Rattle.demi_spec.specs.Record.{Record};
ghost use Rattle.demi_audit.specs.Past.{IsBack, IsLatest, PastOf, last_of};

use demi_core::NoMemory;
use std::alloc::Global;
use std::collections::HashMap;

// From a record back to earlier ones with its key. Records are numbered from 1; number 0 stands for none.
#[derive(Clone, Copy)]
pub(crate) struct BackStep {
    // The record before it with this key.
    pub(crate) previous: usize,
    // A record before it with this key that is far enough back for a look-up to take few steps.
    pub(crate) jump: usize,
    // How many records before it have the key, and itself.
    pub(crate) depth: usize,
}

/// The records of a log by their keys.
#[derive(Drop)]
pub(crate) struct Past {
    // The last record with each key.
    pub(crate) last: HashMap<Vec<u8>, usize>,
    pub(crate) steps: Vec<BackStep>,
}

impl Past {
    /// No records, with room for so many.
    pub(crate) fn new(alloc: Global, count: usize) -> Result<Past, NoMemory>
        ensures { IfOk result (λ p. PastOf p []) }
    {
        let mut steps = Vec::with_capacity(alloc, count.saturating_add(1))?;
        steps.push(BackStep {
            previous: 0,
            jump: 0,
            depth: 0,
        })?;
        Ok(Past {
            last: HashMap::new(alloc),
            steps,
        })
    }

    // The last record with a key, or 0.
    fn last_with(&self, key: &[u8]) -> usize
        ensures { result ≡ last_of self.now key.now }
    {
        self.last.get(key).copied().unwrap_or(0)
    }

    // The step back from a record that comes behind all others, by the one before it with its key. It jumps as far as
    // two jumps of the same length from there, where there are such.
    fn step_from(&self, previous: usize) -> BackStep
        requires past { (rs : List Record) × PastOf self.now rs × (previous ≤ length rs) }
        ensures previous { result.previous ≡ previous }
        ensures jump { (rs : List Record) → PastOf self.now rs → previous ≤ length rs → IsBack rs previous result.jump }
    {
        let back = self.steps[previous];
        let far = self.steps[back.jump];
        let farther = self.steps[far.jump];
        let is_twice = back.depth.saturating_sub(far.depth)
            == far.depth.saturating_sub(farther.depth);
        BackStep {
            previous,
            jump: if is_twice { far.jump } else { previous },
            depth: back.depth.saturating_add(1),
        }
    }

    /// Adds one more record with this key.
    pub(crate) fn add(&mut self, alloc: Global, key: &[u8]) -> Result<(), NoMemory>
        requires { (rs : List Record) × PastOf self.old rs }
        ensures { (rs : List Record) (r : Record) → PastOf self.old rs → r.key ≡ key.now → OnOk result (PastOf self.new (rs ++ r ∷ [])) }
    {
        let step = self.step_from(self.last_with(key));
        let version = self.steps.len();
        self.steps.push(step)?;
        self.last.insert(Vec::from_slice(alloc, key)?, version)?;
        Ok(())
    }

    /// The last of the first so many records that has a key, or 0.
    pub(crate) fn latest(&self, key: &[u8], version: usize) -> usize
        requires { (rs : List Record) × PastOf self.now rs × (version ≤ length rs) }
        ensures { (rs : List Record) → PastOf self.now rs → version ≤ length rs → IsLatest rs key.now version result }
    {
        let mut at = self.last_with(key);
        'back: while at > version {
            let step = self.steps[at];
            at = if step.jump > version {
                step.jump
            } else {
                step.previous
            };
        }
        at
    }
}

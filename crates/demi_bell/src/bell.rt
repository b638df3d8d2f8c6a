use crossbeam_utils::CachePadded;
use std::sync::Wait;
use std::sync::atomic::{AtomicU64, Ordering};

// What the word of a bell says.
const AWAKE: u64 = 0;

const LISTENING: u64 = 1;

/// What one thread sleeps on, which any number of threads may ring. Its word has a cache line of its own.
#[derive(Drop)]
pub struct Bell {
    word: CachePadded<AtomicU64>,
}

impl Bell {
    /// A bell at which nobody listens.
    pub fn new() -> Bell {
        Bell {
            word: CachePadded::new(AtomicU64::new(AWAKE)),
        }
    }

    /// Wakes the sleeper, if there is one. It is called after something to do was made, and costs one load where nobody
    /// listens.
    pub fn ring(&self) {
        if self.word.load(Ordering::SeqCst) != AWAKE {
            self.wake();
        }
    }

    // The swap lets one of several rings wake.
    fn wake(&self) {
        if self.word.swap(AWAKE, Ordering::SeqCst) == LISTENING {
            self.word.wake_one();
        }
    }

    /// From now on no ring is lost. Whoever listens looks once more whether there is something to do, and then sleeps
    /// or leaves.
    pub fn listen(&self) {
        self.word.store(LISTENING, Ordering::SeqCst);
    }

    /// Ends listening without a sleep.
    pub fn leave(&self) {
        self.word.store(AWAKE, Ordering::SeqCst);
    }

    /// Sleeps until a ring since the last `listen`. It may also return for no reason.
    pub fn sleep<R: Wait>(&self, rt: &R) {
        self.word.park(rt, LISTENING as u32);
    }
}

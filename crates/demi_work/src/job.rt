//! Work that a thread does to its end.
use std::sync::Wait;

/// Work to be done once. It may wait for other work that runs beside it.
pub trait Job {
    // What it needs.
    ghost ready: { Self → Type 0 };

    // What it came to: what does the work, before it and after it.
    ghost done: { Self → Self → Type 0 };

    /// Does the work, to its end.
    fn work<R: Wait>(&mut self, rt: &R)
        requires { ready self.old }
        ensures { done self.old self.new };
}

/// Work of many, of which the first has something left to do once all have ended.
pub trait Crew: Job {
    // What the last of the work needs.
    ghost may_finish: { Self → Type 0 };

    // What the last of the work came to.
    ghost finished: { Self → Self → Type 0 };

    /// Does the last of the work, for all.
    fn finish<R: Wait>(&mut self, rt: &R)
        requires { may_finish self.old }
        ensures { finished self.old self.new };

    // Who was ready and did its work may do the last of it.
    ghost goes_on: { (a b : Self) → Self.ready a → Self.done a b → may_finish b };
}

//! What a worker serves its links with.
ghost use Rattle.std.specs.Prelude.{◌≡◌, ℕ, []};
ghost use Rattle.demi_worker.specs.Stopping.{IsStopped};

use demi_link::Calls;
use demi_sched::Round;
use std::sync::Wait;

/// The calls of a worker for its links, and besides how it waits, and how it stops the ports of a link.
pub trait Serves: Calls {
    /// Waits a little after a round that polled nobody. The next round looks again, so nothing is slept over. When it returns
    /// is not promised.
    fn park<R: Wait>(&mut self, rt: &R, round: &Round)
        requires { round.now.polled.items ≡ [] }
        ensures sight { (link : ℕ) → Self.sight self.new link ≡ Self.sight self.old link }
        ensures events { Self.events self.new ≡ Self.events self.old }
        ensures seen { Self.seen self.new ≡ Self.seen self.old }
        ensures begun { Self.begun self.new ≡ Self.begun self.old }
        ensures ports { Self.ports self.new ≡ Self.ports self.old }
        ensures goes { (n : ℕ) → Self.goes n self.old self.new };

    /// After a round that polled somebody: it parks from the beginning again.
    fn busy(&mut self)
        ensures sight { (link : ℕ) → Self.sight self.new link ≡ Self.sight self.old link }
        ensures events { Self.events self.new ≡ Self.events self.old }
        ensures seen { Self.seen self.new ≡ Self.seen self.old }
        ensures begun { Self.begun self.new ≡ Self.begun self.old }
        ensures ports { Self.ports self.new ≡ Self.ports self.old }
        ensures goes { (n : ℕ) → Self.goes n self.old self.new };

    /// Stops both ports of the link, whose devices then end, and waits until both stops are redeemed. Nothing else of what the
    /// worker has for the link changes, and nothing of what it has for others.
    fn stop<R: Wait>(&mut self, rt: &R, link: u16)
        ensures stopped { IsStopped (Self.sight self.old link) (Self.sight self.new link) }
        ensures goes { Self.goes link self.old self.new };
}

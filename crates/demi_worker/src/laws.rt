// Laws of what a worker has for its links: functions that do nothing.
ghost use Rattle.std.specs.Prelude.{◌≡◌, ℕ, List, []};
ghost use Rattle.demi_sched.specs.Holding.{SchedulerValue};
ghost use Rattle.demi_served.specs.Keeps.{LinkKeeps, WorkerKeeps, numbered, of_link};
ghost use Rattle.demi_link.specs.Ends.{IsKnown};
ghost use Rattle.demi_link.specs.Linked.{LinkValue};
ghost use Rattle.demi_link.specs.Sights.{LeavesBe, Sight, worker_of};
ghost use Rattle.demi_link.specs.Talks.{TalkValue};
ghost use Rattle.demi_link.specs.declared.phase.Cause.{Cause};
ghost use Rattle.demi_worker.specs.Ending.{IsNew, IsServed, OwesNothing};
ghost use Rattle.demi_worker.specs.Standing.{LeavesOthers, Stands};
ghost use Rattle.demi_worker.specs.Stopping.{IsLeft};
ghost use Rattle.demi_worker.specs.declared.ended.Ended.{Ended};

use crate::serves::Serves;

/// What a worker has at last for a link that has ended: the draws for it are its own, its replies are those of its requests, the
/// worker keeps its own, and as many halves are out and as many tokens due as when it ended: none, where it was not lost.
pub fn a_served_link_keeps_its_replies()
    ensures own { (ports link : ℕ) (cause : Cause) (did : TalkValue) (had s : Sight) → IsServed ports link cause did had → IsLeft link had s → of_link link s.draws ≡ numbered link 0 did.kept.drawn }
    ensures kept { (ports link : ℕ) (cause : Cause) (did : TalkValue) (had s : Sight) → IsServed ports link cause did had → IsLeft link had s → LinkKeeps s.base (worker_of s) link did.kept }
    ensures worker { (ports link : ℕ) (cause : Cause) (did : TalkValue) (had s : Sight) → IsServed ports link cause did had → IsLeft link had s → WorkerKeeps (worker_of s) }
    ensures same { (link : ℕ) (had s : Sight) → IsLeft link had s → (s.out ≡ had.out) × (s.due ≡ had.due) }
    ensures owes { (ports link : ℕ) (cause : Cause) (did : TalkValue) (had s : Sight) → IsServed ports link cause did had → IsLeft link had s → IsKnown cause → OwesNothing s }
{}

/// A link for which its worker did nothing is still such a link whatever others do.
pub fn a_left_link_stays_new()
    ensures { (number link : ℕ) (a b : Sight) → IsNew number a link → LeavesBe link a b → IsNew number b link }
{}

/// Calls that are as those of anyone leave what a worker has for each link, and how it stands.
pub fn calls_of_anyone_leave_all<C: Serves>()
    ensures leaves { (a b : C) → ((n : ℕ) → C.goes n a b) → LeavesOthers [] (C.sight a) (C.sight b) }
    ensures stands { (a b : C) (s : SchedulerValue LinkValue) (ended : List Ended) → ((n : ℕ) → C.goes n a b) → Stands (C.ports a) (C.sight a) s ended → Stands (C.ports b) (C.sight b) s ended }
{}

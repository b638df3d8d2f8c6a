// What is done with coroutines between rounds.
ghost use Rattle.std.specs.Prelude.{◌≡◌, ◌≤◌, IfNone, IfSome, false, length};
ghost use Rattle.std.specs.Vec.{vec_capacity};
ghost use Rattle.demi_port_core.specs.History.{Each};
ghost use Rattle.demi_sched.specs.Polling.{Collected};
ghost use Rattle.demi_sched.specs.Waiting.{count_due, has_ended, live};
ghost use Rattle.demi_sched.specs.declared.held.Held.{Held};

use crate::held::Held;

// How many are not over.
pub(crate) fn count_live<K>(all: &Vec<Held<K>>) -> u32
    requires { length all.now.items ≤ 64 }
    ensures { result ≡ live all.now.items }
{
    let mut live = 0;
    for held in all.iter() {
        live += held.state.count();
    }
    live
}

// How many are due.
pub(crate) fn count_due<K>(all: &Vec<Held<K>>) -> u32
    requires { length all.now.items ≤ 64 }
    ensures { result ≡ count_due all.now.items }
{
    let mut due = 0;
    for held in all.iter() {
        due += held.state.count_due();
    }
    due
}

// Takes out the first that is over.
pub(crate) fn take_ended<K>(all: &mut Vec<Held<K>>) -> Option<(u32, K)>
    ensures some { IfSome result (λ r. Collected all.old.items r.0 r.1 all.new.items) }
    ensures none { IfNone result (Each (λ (h : Held K). has_ended h.state ≡ false) all.old.items × (all.new.items ≡ all.old.items)) }
    ensures capacity { vec_capacity all.new ≡ vec_capacity all.old }
{
    for i in 0..all.len() {
        if all[i].state.has_ended() {
            let Held {
                number,
                coroutine,
                state: _,
            } = all.remove(i);
            return Some((number, coroutine));
        }
    }
    None
}

// Laws of what passes and a closed port know: functions that do nothing.
ghost use Rattle.std.specs.Prelude.{◌≡◌, ℕ, ◌<◌};
ghost use Rattle.demi_port_core.specs.Trails.{Behind};
ghost use Rattle.demi_port.specs.Seen.{EndValue, PassValue, known_at, known_by, says};

use demi_port_core::Law;

/// What a pass knew of an outcome when it was ready holds by all that the pass knows later, and at the port's end over
/// the whole history and all that the outcomes told. Each premise is what `try_wait` and `close` say.
pub fn a_reply_holds_to_the_end<L: Law>()
    ensures later { (b : L.Base) (old new : PassValue L.Said L.Told L.Base) (p : ℕ) (out : L.Out) → L.admits b old.heard old.trail p out → p < old.floor → Behind (known_by new) (known_by old) → L.admits b new.heard new.trail p out × (p < new.floor) }
    ensures closed { (e : EndValue L.Said L.Told L.Base) (pass : PassValue L.Said L.Told L.Base) (p : ℕ) (out : L.Out) → L.admits e.base pass.heard pass.trail p out → p < pass.floor → Behind (known_at e) (known_by pass) → e.heard ≡ says e.history → L.admits e.base (says e.history) e.trail p out }
{}

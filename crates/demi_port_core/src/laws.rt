// Laws of what a port serves: functions that do nothing.
ghost use Rattle.std.specs.Prelude.{ℕ, ◌<◌, List};
ghost use Rattle.demi_port_core.specs.declared.trail.Trail.{Trail};
ghost use Rattle.demi_port_core.specs.Trails.{Behind, StartsWith};

use crate::law::Law;

/// An outcome that was admitted by what its taker knew, whose floor is above the place, stays admitted by all that is
/// known later, and by all that the outcomes told together with any history that begins with what is known then.
pub fn an_outcome_stays_admitted<L: Law>()
    ensures later { (b : L.Base) (v w : Trail L.Said L.Told) (p : ℕ) (out : L.Out) → L.admits b v.heard v.told p out → p < v.floor → Behind w v → L.admits b w.heard w.told p out × (p < w.floor) }
    ensures survives { (b : L.Base) (v w : Trail L.Said L.Told) (history : List L.Said) (p : ℕ) (out : L.Out) → L.admits b v.heard v.told p out → p < v.floor → Behind w v → StartsWith history w.heard → L.admits b history w.told p out }
{}

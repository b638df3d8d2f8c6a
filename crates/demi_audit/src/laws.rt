// Laws of the definitions: functions that do nothing.
ghost use Rattle.std.specs.Prelude.{◌≡◌, ◌↔◌, List, None};
ghost use Rattle.demi_served.specs.Talks.{Run};
ghost use Rattle.demi_served.specs.Served.{Whole};
ghost use Rattle.demi_audit.specs.Verdict.{Heard, HeardAll, first_fault};

/// The rules of the auditor name no fault of a session exactly where the session was whole, whatever was heard of it.
pub fn the_verdict_is_whole()
    ensures { (run : Run) (heard : List Heard) → HeardAll run.links heard → (first_fault run heard ≡ None) ↔ Whole run }
{}

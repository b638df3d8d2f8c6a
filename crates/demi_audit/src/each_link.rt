// Which reply of all links is the first that is not consistent.
ghost use Rattle.std.specs.Prelude.{◌≡◌, ◌≤◌, ℕ, List, [], length, map, Option};
ghost use Rattle.std.specs.List.{AllByRecursion};
ghost use Rattle.demi_served.specs.Talks.{Run};
ghost use Rattle.demi_audit.specs.Checking.{reply_fault};
ghost use Rattle.demi_audit.specs.Hearing.{Follows};
ghost use Rattle.demi_audit.specs.Judging.{IsCase};
ghost use Rattle.demi_audit.specs.Reading.{IsInside, link_by};
ghost use Rattle.demi_audit.specs.Verdict.{Fault, Heard, HeardAll, links_fault, said};

use crate::hearing::LinkHeard;
use crate::judging::{Case, judge_link};
use crate::transcript::LinkPlaces;

/// The first reply that is not consistent, by its link and its index there.
pub(crate) fn judge_links(
    case: &Case<'_>,
    places: &[LinkPlaces],
    links: &[LinkHeard],
) -> Option<(u32, usize)>
    requires case { (run : Run) × IsCase case.now run }
    requires heard { (all : List Heard) × HeardAll (map (link_by case.now.text.now) places.now) all × Follows case.now.text.now case.now.heard.items links.now all }
    requires inside { AllByRecursion (IsInside (length case.now.text.now)) places.now }
    requires few { length places.now ≤ 16 }
    ensures { (run : Run) (all : List Heard) (later : Option Fault) → IsCase case.now run
        → HeardAll (map (link_by case.now.text.now) places.now) all → Follows case.now.text.now case.now.heard.items links.now all
        → links_fault run (said all) [] 0 all later ≡ reply_fault result later }
{
    let mut from = 0;
    'links: for l in 0..places.len() {
        let place = places[l];
        let link = links[l];
        let input = &case.text[place.input..place.input + place.input_size];
        match judge_link(case, l as u32, input, from, link.count, link.more) {
            Some(index) => return Some((l as u32, index)),
            None => from += link.count,
        }
    }
    None
}

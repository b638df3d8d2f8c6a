// What the ends of a session of any number of links and workers show: a function that does nothing.
ghost use Rattle.std.specs.Prelude.{◌≡◌, ℕ, ◌+◌, ◌*◌, List, length, map};
ghost use Rattle.demi_pdpix.specs.Lanes.{IsEndOf};
ghost use Rattle.demi_port.specs.Seen.{DeviceValue, says};
ghost use Rattle.demi_spec.specs.Record.{Record};
ghost use Rattle.demi_store.specs.Laws.{StoreBasis};
ghost use Rattle.demi_store.specs.declared.ask.StoreAsk.{StoreAsk};
ghost use Rattle.demi_store.specs.declared.told.StoreTold.{StoreTold};
ghost use Rattle.demi_served.specs.Accounts.{LeftInLog};
ghost use Rattle.demi_served.specs.Ends.{StoreEnd};
ghost use Rattle.demi_served.specs.Served.{Placed};
ghost use Rattle.demi_context.specs.ContextPorts.{Whole};
ghost use Rattle.demi_crew.specs.Serving.{HasLinks};
ghost use Rattle.demi_gathered.specs.Gathered.{CrewServed, IsMember, IsShared, IsShut, LinkShut, Member};

use demi_closed::{a_served_link_closes, a_session_closes};
use demi_core::{Sink, Source};

/// Where the workers of a session served the links that were shared out to them, each link to just one worker, and all ports are closed:
/// each link has an end that its worker listed, what was read of each and written to each is accounted for, and the session of all served.
pub fn a_crew_served<I: Source, O: Sink>()
    ensures { (demi : Whole) (crew : List Member) (links : List (LinkShut I O)) (seat : DeviceValue StoreAsk StoreTold StoreBasis) (end : StoreEnd) (records : List Record)
        → Placed (IsMember demi) 0 crew → HasLinks (length links) demi → IsShared (length links) crew
        → Placed (IsShut I.taken I.left I.faults I.reads O.written O.faults demi crew) 0 links
        → IsEndOf demi.service seat (map (λ (m : Member). m.after.service) crew) end → seat.passes ≡ length crew
        → LeftInLog demi.service.key.base (says end.history) end.trail records
        → CrewServed I.taken I.left I.faults I.reads O.written O.faults (3 + 2 * length links) crew demi.service.key.base links end.history end.trail records }
{
    a_served_link_closes::<I, O>();
    a_session_closes();
}

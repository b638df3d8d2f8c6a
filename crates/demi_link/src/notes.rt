//! What a link notes of its steps, for contracts alone.
ghost use Rattle.std.specs.Prelude.{◌≡◌, ◌++◌, ℕ, [], ◌∷◌, Some};
ghost use Rattle.demi_spec.specs.Request.{End};
ghost use Rattle.demi_spec.specs.Input.{Request_of, Refused_end};
ghost use Rattle.demi_served.specs.Asking.{plain_answer};
ghost use Rattle.demi_served.specs.Steps.{after_drawn, after_reply};
ghost use Rattle.demi_link.specs.Fitting.{reply_as};
ghost use Rattle.demi_link.specs.Noting.{after_found, after_taken};

use crate::phase::Draft;
use crate::talk::Talk;
use demi_device::Mark;
use demi_frame::Decoder;
use demi_port_core::Place;
use demi_streamq::RxOut;

// The decoder handed out a put or a get, which is the request at hand.
pub(crate) fn one_handed(talk: &Mark<Talk>, decoder: &Decoder) -> Mark<Talk>
    ensures { result.value ≡ after_found talk.now.value decoder.now.last }
{
    Mark::from(talk, decoder)
}

// The decoder handed out the end request.
pub(crate) fn one_ended(talk: &Mark<Talk>) -> Mark<Talk>
    ensures { result.value ≡ record talk.now.value { handed = talk.now.value.handed ++ End ∷ []; request = Request_of End } }
{
    Mark::from(talk, &())
}

// The input ends refused.
pub(crate) fn one_refused(talk: &Mark<Talk>, code: u8) -> Mark<Talk>
    ensures { result.value ≡ record talk.now.value { refused = Some code; request = Refused_end code } }
{
    Mark::from(talk, &code)
}

// The outcome at hand is of this place.
pub(crate) fn one_placed(talk: &Mark<Talk>, place: Place) -> Mark<Talk>
    ensures { result.value ≡ record talk.now.value { place = place.0 } }
{
    Mark::from(talk, &place)
}

// The pop at the place at hand came to an outcome.
pub(crate) fn one_taken(talk: &Mark<Talk>, outcome: &RxOut) -> Mark<Talk>
    ensures { result.value ≡ after_taken talk.now.value talk.now.value.place outcome.now }
{
    Mark::from(talk, outcome)
}

// The reply at hand is what this draft says.
pub(crate) fn one_drafted(talk: &Mark<Talk>, draft: &Draft) -> Mark<Talk>
    ensures { result.value ≡ record talk.now.value { reply = reply_as talk.now.value.kept.worker draft.now } }
{
    Mark::from(talk, draft)
}

// A push was written.
pub(crate) fn one_written(talk: &Mark<Talk>, place: Place) -> Mark<Talk>
    ensures { result.value ≡ record talk.now.value { written = talk.now.value.written ++ place.0 ∷ [] } }
{
    Mark::from(talk, &place)
}

// A number was drawn for the request at hand.
pub(crate) fn one_drawn(talk: &Mark<Talk>) -> Mark<Talk>
    ensures { result.value ≡ record talk.now.value { kept = after_drawn talk.now.value.kept talk.now.value.request } }
{
    Mark::from(talk, &())
}

// It was drawn, and is that of the plain reply at hand.
pub(crate) fn one_plain(talk: &Mark<Talk>, sequence: u64) -> Mark<Talk>
    ensures { result.value ≡ record talk.now.value { kept = after_drawn talk.now.value.kept talk.now.value.request; reply = record { worker = talk.now.value.kept.worker; sequence = sequence; answer = plain_answer talk.now.value.request } } }
{
    Mark::from(talk, &sequence)
}

// The reply at hand was pushed.
pub(crate) fn one_replied(talk: &Mark<Talk>) -> Mark<Talk>
    ensures { result.value ≡ record talk.now.value { kept = after_reply talk.now.value.kept talk.now.value.reply } }
{
    Mark::from(talk, &())
}

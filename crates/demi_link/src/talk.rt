//! What a link did, as contracts see it.
use std::marker::Model;

/// What a link did and heard. No value of it is made: contracts alone see it.
#[derive(Drop)]
pub struct Talk {}

impl Model for Talk {
    ghost use Rattle.demi_link.specs.Talks.{TalkValue, new_talk};

    ghost Value = { TalkValue };

    ghost view = { λ _. new_talk 0 };
}

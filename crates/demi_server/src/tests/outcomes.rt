//! Outcomes of sessions, by how their links ended.
use crate::outcome::{Outcome, outcome_of};
use demi_link::Cause;
use std::test::Fail;

#[test]
fn the_first_kind_wins_and_the_lowest_link(rt: HostRuntime) -> Result<(), Fail> {
    assert_eq!(rt; outcome_of(&[Cause::Clean, Cause::Bye]), Outcome::Served);
    assert_eq!(rt;
        outcome_of(&[Cause::LogFault, Cause::NoMemory]),
        Outcome::NoMemory,
    );
    assert_eq!(rt;
        outcome_of(&[Cause::WriteFault, Cause::ReadFault, Cause::ReadFault]),
        Outcome::ReadFault(1),
    );
    assert_eq!(rt;
        outcome_of(&[Cause::Refused(2), Cause::Refused(1)]),
        Outcome::Refused(0, 2),
    );
    Ok(())
}

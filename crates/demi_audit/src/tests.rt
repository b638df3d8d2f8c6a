use crate::transcript::{LinkPlaces, TranscriptFault, read_transcript};
use crate::{generate, the_verdict_is_whole};
use std::test::Fail;

#[test]
fn a_number_gives_an_input(rt: HostRuntime) -> Result<(), Fail> {
    let Ok(inputs) = generate(rt.alloc(), 0, 1, 1) else {
        panic!(rt; "memory is there");
    };
    assert_eq!(rt; inputs.len(), 1);
    assert_eq!(rt;
        inputs[0].as_slice(),
        b"\x02\x03\x00\x00\x00\x00k63\x03\x00\x00\x00\x00\x00".as_slice()
    );
    Ok(())
}

#[test]
fn requests_are_dealt_in_turn(rt: HostRuntime) -> Result<(), Fail> {
    let Ok(inputs) = generate(rt.alloc(), 0, 2, 1) else {
        panic!(rt; "memory is there");
    };
    assert_eq!(rt; inputs.len(), 2);
    assert_eq!(rt;
        inputs[0].as_slice(),
        b"\x02\x03\x00\x00\x00\x00k63\x03\x00\x00\x00\x00\x00".as_slice()
    );
    assert_eq!(rt;
        inputs[1].as_slice(),
        b"\x03\x00\x00\x00\x00\x00".as_slice()
    );
    Ok(())
}

#[test]
fn a_law_does_nothing() {
    the_verdict_is_whole();
}

// The transcript of one link that sent an end frame to an empty store, and was not answered.
const ONE_LINK: [u8; 58] = *b"DEMITRN1\x00\x00\x00\x05\x00\x00\x00\x00\x00\x00\x00\x01\
    \x00\x00\x00\x00\x00\x00\x00\x08DEMILOG1\
    \x00\x00\x00\x00\x00\x00\x00\x06\x03\x00\x00\x00\x00\x00\x00\x00\x00\x00\x00\x00\x00\x00";

#[test]
fn a_transcript_is_read(rt: HostRuntime) -> Result<(), Fail> {
    let Ok(transcript) = read_transcript(rt.alloc(), &ONE_LINK) else {
        panic!(rt; "it is a transcript");
    };
    assert_eq!(rt; transcript.limit, 5);
    assert_eq!(rt; transcript.old, 0);
    assert_eq!(rt; transcript.log_size, 8);
    assert_eq!(rt; transcript.ends.len(), 0);
    assert_eq!(rt; transcript.links.len(), 1);
    assert_eq!(rt;
        transcript.links[0],
        LinkPlaces {
            input: 44,
            input_size: 6,
            output: 58,
            output_size: 0,
        }
    );
    Ok(())
}

#[test]
fn a_transcript_that_is_cut_off_is_bad(rt: HostRuntime) -> Result<(), Fail> {
    let Err(fault) = read_transcript(rt.alloc(), &ONE_LINK[..57]) else {
        panic!(rt; "it is cut off");
    };
    assert_eq!(rt; fault, TranscriptFault::Bad(50));
    Ok(())
}

//! Logs that are none, and entries that cannot be delivered.
use crate::helpers::{deliver, election, empty_log, join, open, play, publish, refused, three};
use protocol::Refusal;
use std::test::Fail;

#[test]
fn bytes_that_are_no_log(rt: HostRuntime) -> Result<(), Fail> {
    let mut log = empty_log(rt.alloc(), 4)?;
    let mut cluster = open(three(), 7);
    play(&rt, &mut cluster, &mut log, &election());
    // the length and the count; a log of four entries has 112 bytes
    for (length, count) in [(111, 2), (113, 2), (112, 5), (3, 2), (0, 2)] {
        let mut bytes = log.to_vec(rt.alloc())?;
        bytes.resize(length, 0)?;
        if let Some(low) = bytes.get_mut(3) {
            *low = count;
        }
        for call in [join(2, 0, 1), publish(0, 1, 6, 118, 7), deliver(1, 0)] {
            let refusal = Refusal::IllFormedLog;
            refused(&rt, &mut cluster, &mut bytes, call, refusal)?;
        }
    }
    let line = (publish(0, 1, 6, 118, 7), Ok(Some(2)));
    play(&rt, &mut cluster, &mut log, &[line]);
    Ok(())
}

#[test]
fn entries_that_cannot_be_delivered(rt: HostRuntime) -> Result<(), Fail> {
    let mut log = empty_log(rt.alloc(), 4)?;
    let mut cluster = open(three(), 7);
    play(&rt, &mut cluster, &mut log, &election());
    let line = (publish(0, 1, 6, 118, 7), Ok(Some(2)));
    play(&rt, &mut cluster, &mut log, &[line]);
    // a place and the byte there, and a delivery with its refusal; kinds begin at 4, bodies at 8
    for (place, byte, call, refusal) in [
        (0, 0, deliver(3, 0), Refusal::NoSuchEntry),
        (0, 0, deliver(65_535, 0), Refusal::NoSuchEntry),
        (0, 0, deliver(2, 3), Refusal::UnknownNode),
        (0, 0, deliver(0, 1), Refusal::OtherDestination),
        (0, 0, deliver(1, 2), Refusal::OtherDestination),
        (3, 2, deliver(2, 1), Refusal::NoSuchEntry),
        (4, 0, deliver(0, 0), Refusal::UnknownKind),
        (6, 9, deliver(2, 1), Refusal::UnknownKind),
        // a version in a join
        (17, 1, deliver(0, 0), Refusal::InvalidBody),
        // an unknown source, a single destination, an unknown node in a configuration
        (60, 3, deliver(2, 1), Refusal::InvalidBody),
        (61, 1, deliver(2, 1), Refusal::InvalidBody),
        (83, 8, deliver(2, 1), Refusal::InvalidBody),
    ] {
        let mut bytes = log.to_vec(rt.alloc())?;
        assert!(rt; place < bytes.len());
        bytes[place] = byte;
        refused(&rt, &mut cluster, &mut bytes, call, refusal)?;
    }
    play(&rt, &mut cluster, &mut log, &[(deliver(2, 1), Ok(Some(3)))]);
    Ok(())
}

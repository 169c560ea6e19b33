//! Adding messages, and reading them again.
use message_log::{Entry, Fault, append, clear, encode, look_up};
use protocol::{Commit, Join, Message, Publication, Response};
use quorum::NodeSet;
use std::test::Fail;

fn join() -> Message {
    Message::Join(Join {
        source: 1,
        destination: 0,
        term: 1,
        base_term: 0,
        base_version: 5,
    })
}

fn publication() -> Message {
    Message::Publication(Publication {
        source: 0,
        term: 1,
        version: 6,
        base_term: 0,
        base_version: 5,
        value: 118,
        configuration: NodeSet::from_bits(7),
        committed_configuration: NodeSet::from_bits(7),
    })
}

// A response to everyone is no legal message: it has the body of a commit.
fn response() -> Message {
    Message::Response(Response {
        source: 0,
        destination: 255,
        term: 1,
        version: 6,
    })
}

fn commit() -> Message {
    Message::Commit(Commit {
        source: 0,
        term: 1,
        version: 6,
    })
}

// Whether this entry of a log of three nodes is this message.
fn is(bytes: &[u8], entry: u16, message: &Message) -> bool {
    let Ok(Some(stored)) = look_up(bytes, entry) else {
        return false;
    };
    Entry::read(stored.kind, stored.body, 3).is_ok_and(|entry| entry.message() == *message)
}

#[test]
fn a_message_is_added_once(rt: HostRuntime) -> Result<(), Fail> {
    let mut bytes = vec![in rt.alloc(); 0u8; 85]?;
    assert_eq!(rt; append(&mut bytes, &join()), Err(Fault::IllFormedLog));
    assert!(rt; clear(&mut bytes, 3).is_ok());
    for (message, answer) in [
        (publication(), Ok(0)),
        (join(), Ok(1)),
        (publication(), Ok(0)),
        (join(), Ok(1)),
        // the same body under another kind is another entry
        (response(), Ok(2)),
        // a full log still finds what it has
        (commit(), Err(Fault::LogFull)),
        (join(), Ok(1)),
        (response(), Ok(2)),
    ] {
        assert_eq!(rt; append(&mut bytes, &message), answer);
    }
    assert!(rt; is(&bytes, 0, &publication()) && is(&bytes, 1, &join()));
    Ok(())
}

#[test]
fn the_lowest_equal_entry_is_found(rt: HostRuntime) {
    let mut bytes = [0; 85];
    bytes[1] = 3;
    // two equal entries, and one more behind the count, which is not read
    bytes[3] = 2;
    bytes[7..33].copy_from_slice(&encode(&commit()));
    bytes[33..59].copy_from_slice(&encode(&commit()));
    bytes[59..85].copy_from_slice(&encode(&commit()));
    bytes[4..7].copy_from_slice(&[4, 4, 4]);
    assert_eq!(rt; append(&mut bytes, &commit()), Ok(0));
    bytes[4] = 3;
    assert_eq!(rt; append(&mut bytes, &commit()), Ok(1));
    bytes[5] = 3;
    assert_eq!(rt; append(&mut bytes, &commit()), Ok(2));
    assert_eq!(rt; bytes[3], 3);
}

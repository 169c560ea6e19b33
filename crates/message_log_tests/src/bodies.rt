//! Which bodies are valid.
use message_log::{Entry, Fault};

// What is wrong with a body, if anything.
fn fault(kind: u8, body: &[u8], nodes: u8) -> Option<Fault> {
    Entry::read(kind, body, nodes).err()
}

#[test]
fn kinds_are_1_to_4(rt: HostRuntime) {
    let body = [0; 26];
    for kind in 0..=255u8 {
        let expected = match kind {
            // a join and a response from node 0 to node 0
            1 | 3 => None,
            // a publication and a commit are for everyone, and node 0 is not
            2 | 4 => Some(Fault::InvalidBody),
            _ => Some(Fault::UnknownKind),
        };
        assert_eq!(rt; fault(kind, &body, 1), expected);
    }
    // an unknown kind comes before a body of another length
    assert_eq!(rt; fault(0, &[], 1), Some(Fault::UnknownKind));
    assert_eq!(rt; fault(1, &[0; 25], 1), Some(Fault::InvalidBody));
    assert_eq!(rt; fault(1, &[0; 27], 1), Some(Fault::InvalidBody));
}

#[test]
fn nodes_are_below_n(rt: HostRuntime) {
    let mut body = [0; 26];
    assert_eq!(rt; fault(1, &body, 0), Some(Fault::InvalidBody));
    assert_eq!(rt; fault(1, &body, 1), None);
    body[0] = 15;
    assert_eq!(rt; fault(1, &body, 15), Some(Fault::InvalidBody));
    assert_eq!(rt; fault(1, &body, 16), None);
    body[1] = 16;
    assert_eq!(rt; fault(3, &body, 16), Some(Fault::InvalidBody));
}

#[test]
fn configurations_are_legal(rt: HostRuntime) {
    // configuration, committed configuration, nodes, and whether a publication may have them
    for (accepted, committed, nodes, good) in [
        ([0x00, 0x01], [0x00, 0x01], 1, true),
        ([0x00, 0x00], [0x00, 0x01], 1, false),
        ([0x00, 0x01], [0x00, 0x00], 1, false),
        ([0x00, 0x02], [0x00, 0x01], 1, false),
        ([0x80, 0x00], [0x00, 0x01], 15, false),
        ([0x00, 0x01], [0x80, 0x00], 15, false),
        ([0x80, 0x00], [0xff, 0xff], 16, true),
    ] {
        let mut body = [0; 26];
        body[1] = 255;
        body[22..24].copy_from_slice(&accepted);
        body[24..26].copy_from_slice(&committed);
        assert_eq!(rt; fault(2, &body, nodes).is_none(), good);
    }
}

#[test]
fn unused_fields_are_zero(rt: HostRuntime) {
    for place in 2..26 {
        let mut body = [0; 26];
        body[place] = 1;
        // a join uses its term and its base
        let join = place < 6 || (10 <= place && place < 18);
        assert_eq!(rt; fault(1, &body, 1).is_none(), join);
        // a response and a commit use their term and version
        assert_eq!(rt; fault(3, &body, 1).is_none(), place < 10);
        body[1] = 255;
        assert_eq!(rt; fault(4, &body, 1).is_none(), place < 10);
    }
}

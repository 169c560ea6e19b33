//! Logs without room.
use crate::helpers::{
    Line, bootstrap, deliver, empty_log, fresh, join, leading, open, plain, play, publish, record,
    refused, restarted, state, three,
};
use message_log::append;
use protocol::{Join, Message, Refusal};
use std::test::Fail;

// One node elects itself and commits a version, which takes four entries.
fn lines() -> [Line; 7] {
    [
        (bootstrap(0), Ok(None)),
        (join(0, 0, 1), Ok(Some(0))),
        (deliver(0, 0), Ok(None)),
        (publish(0, 1, 3, 348, 1), Ok(Some(1))),
        (deliver(1, 0), Ok(Some(2))),
        (deliver(2, 0), Ok(Some(3))),
        // the commit is found again
        (deliver(2, 0), Ok(Some(3))),
    ]
}

#[test]
fn a_new_entry_needs_room(rt: HostRuntime) -> Result<(), Fail> {
    let lines = lines();
    let accepted = record(1, 0, 1, 100, 1, 1);
    // the capacity, the line that finds no room, and the node then
    for (capacity, line, node) in [
        (1, 3, state(accepted, leading(1, 1, 1, 0))),
        (2, 4, state(accepted, leading(1, 3, 1, 0))),
        // the vote that would decide is not counted
        (3, 5, state(record(1, 1, 3, 348, 1, 1), leading(1, 3, 1, 0))),
    ] {
        let mut log = empty_log(rt.alloc(), capacity)?;
        let mut cluster = open(plain(fresh(1)), 1);
        assert!(rt; line < 7);
        play(&rt, &mut cluster, &mut log, &lines[..line]);
        let (call, _) = lines[line];
        refused(&rt, &mut cluster, &mut log, call, Refusal::LogFull)?;
        assert_eq!(rt; cluster.node(0), Ok(node));
    }
    let mut log = empty_log(rt.alloc(), 4)?;
    play(&rt, &mut open(plain(fresh(1)), 1), &mut log, &lines);
    Ok(())
}

#[test]
fn a_join_needs_room_or_is_there(rt: HostRuntime) -> Result<(), Fail> {
    let mut log = empty_log(rt.alloc(), 1)?;
    let there = Message::Join(Join {
        source: 2,
        destination: 1,
        term: 4,
        base_term: 0,
        base_version: 6,
    });
    assert_eq!(rt; append(&mut log, &there)?, 0);
    let mut cluster = open(three(), 7);
    for call in [join(0, 1, 4), join(2, 0, 4), join(2, 1, 3)] {
        refused(&rt, &mut cluster, &mut log, call, Refusal::LogFull)?;
    }
    assert_eq!(rt; cluster.node(2), Ok(state(fresh(6), restarted(0))));
    play(&rt, &mut cluster, &mut log, &[(join(2, 1, 4), Ok(Some(0)))]);
    assert_eq!(rt; cluster.node(2)?.kept.current_term, 4);
    Ok(())
}

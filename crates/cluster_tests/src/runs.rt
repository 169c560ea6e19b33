//! The worked run and what follows on it.
use crate::helpers::{
    bootstrap, deliver, election, empty_log, fresh, join, leading, open, plain, play, publish,
    record, restart, restarted, state, three,
};
use protocol::{Refusal, Volatile};
use std::test::Fail;

#[test]
fn the_worked_run(rt: HostRuntime) -> Result<(), Fail> {
    let mut log = empty_log(rt.alloc(), 64)?;
    let mut cluster = open(three(), 7);
    play(&rt, &mut cluster, &mut log, &election());
    let after = [
        (publish(0, 1, 6, 118, 7), Ok(Some(2))),
        (deliver(2, 0), Ok(Some(3))),
        (deliver(2, 1), Ok(Some(4))),
        (deliver(3, 0), Ok(None)),
        (deliver(4, 0), Ok(Some(5))),
        (deliver(4, 0), Ok(Some(5))),
        (deliver(2, 1), Err(Refusal::AlreadyAccepted)),
        (publish(0, 1, 7, 119, 4), Err(Refusal::NoJoinQuorum)),
    ];
    play(&rt, &mut cluster, &mut log, &after);
    let kept = record(1, 1, 6, 118, 7, 7);
    let follower = Volatile {
        started_join: true,
        ..restarted(7)
    };
    assert_eq!(rt; cluster.node(0), Ok(state(kept, leading(3, 6, 7, 3))));
    assert_eq!(rt; cluster.node(1), Ok(state(kept, follower)));
    assert_eq!(rt; cluster.node(2), Ok(state(fresh(6), restarted(0))));
    assert_eq!(rt; cluster.node(3), Err(Refusal::UnknownNode));
    assert!(rt; log.len() == 1732);
    assert!(rt; log[6] == 2);
    assert!(rt; &log[120..146] == PUBLICATION);
    Ok(())
}

// Entry 2 of the worked run.
const PUBLICATION: &[u8] = b"\x00\xff\
    \x00\x00\x00\x01\x00\x00\x00\x06\
    \x00\x00\x00\x00\x00\x00\x00\x05\
    \x00\x00\x00\x76\x00\x07\x00\x07";

#[test]
fn a_joiner_ahead_is_not_counted(rt: HostRuntime) -> Result<(), Fail> {
    let mut log = empty_log(rt.alloc(), 64)?;
    let mut cluster = open(three(), 7);
    play(&rt, &mut cluster, &mut log, &election());
    let after = [
        (join(2, 0, 1), Ok(Some(2))),
        (deliver(2, 0), Err(Refusal::JoinerAhead)),
        (publish(0, 1, 6, 118, 7), Ok(Some(3))),
    ];
    play(&rt, &mut cluster, &mut log, &after);
    let leader = state(record(1, 0, 5, 100, 7, 7), leading(3, 6, 7, 0));
    assert_eq!(rt; cluster.node(0), Ok(leader));
    Ok(())
}

#[test]
fn a_restarted_node_collects_no_votes_in_its_old_term(rt: HostRuntime) -> Result<(), Fail> {
    let mut log = empty_log(rt.alloc(), 64)?;
    let mut cluster = open(plain(fresh(1)), 1);
    let calls = [
        (join(0, 0, 1), Ok(Some(0))),
        (bootstrap(0), Ok(None)),
        (deliver(0, 0), Ok(None)),
        (publish(0, 1, 3, 348, 1), Ok(Some(1))),
        (restart(0), Ok(None)),
        (deliver(0, 0), Err(Refusal::JoinNotStarted)),
    ];
    play(&rt, &mut cluster, &mut log, &calls);
    assert_eq!(rt;
        cluster.node(0),
        Ok(state(record(1, 0, 1, 100, 1, 1), restarted(1)))
    );
    Ok(())
}

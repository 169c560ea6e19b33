//! Calls that the state of a node refuses, one for each reason, and runs that are refused.
use crate::helpers::{
    Line, bootstrap, deliver, empty_log, join, open, play, publish, restart, setup, three,
};
use cluster::{Turn, run};
use protocol::Refusal;
use quorum::Majority;
use std::test::Fail;
use store::Bank;

// Node 0 wins term 2.
fn electing() -> [Line; 20] {
    [
        (bootstrap(3), Err(Refusal::UnknownNode)),
        (join(3, 0, 1), Err(Refusal::UnknownNode)),
        (join(0, 3, 1), Err(Refusal::UnknownNode)),
        (publish(3, 1, 6, 118, 7), Err(Refusal::UnknownNode)),
        (restart(3), Err(Refusal::UnknownNode)),
        (bootstrap(0), Ok(None)),
        (bootstrap(0), Err(Refusal::AlreadyBootstrapped)),
        (join(0, 0, 0), Err(Refusal::TermNotHigher)),
        (join(0, 0, 1), Ok(Some(0))),
        (join(0, 1, 1), Err(Refusal::TermNotHigher)),
        (join(1, 1, 1), Ok(Some(1))),
        (deliver(1, 1), Err(Refusal::NotBootstrapped)),
        (publish(0, 1, 6, 118, 8), Err(Refusal::IllegalConfiguration)),
        (publish(0, 1, 6, 118, 7), Err(Refusal::ElectionNotWon)),
        (join(1, 0, 2), Ok(Some(2))),
        (deliver(2, 0), Err(Refusal::OtherTerm)),
        (bootstrap(1), Ok(None)),
        (join(0, 0, 2), Ok(Some(3))),
        (deliver(3, 0), Ok(None)),
        (deliver(2, 0), Ok(None)),
    ]
}

// Node 0 publishes version 6 with a smaller configuration, which is committed, and then version 7.
fn publishing() -> [Line; 14] {
    [
        (publish(0, 1, 6, 118, 3), Err(Refusal::OtherTerm)),
        (publish(0, 2, 5, 118, 3), Err(Refusal::VersionNotHigher)),
        (publish(0, 2, 6, 118, 4), Err(Refusal::NoJoinQuorum)),
        (publish(0, 2, 6, 118, 3), Ok(Some(4))),
        (publish(0, 2, 7, 119, 3), Err(Refusal::PublicationUnderWay)),
        (deliver(4, 0), Ok(Some(5))),
        (deliver(4, 0), Err(Refusal::AlreadyAccepted)),
        (deliver(4, 1), Ok(Some(6))),
        (deliver(4, 2), Err(Refusal::OtherTerm)),
        (deliver(5, 0), Ok(None)),
        (deliver(6, 0), Ok(Some(7))),
        (
            publish(0, 2, 7, 119, 1),
            Err(Refusal::ReconfigurationUnderWay),
        ),
        (publish(0, 2, 7, 119, 3), Ok(Some(8))),
        (deliver(6, 0), Err(Refusal::OtherVersion)),
    ]
}

// The commit of version 6 reaches the nodes late.
fn committing() -> [Line; 11] {
    [
        (deliver(7, 0), Err(Refusal::NewerPublished)),
        (deliver(8, 0), Ok(Some(9))),
        (deliver(7, 0), Err(Refusal::OtherAcceptedVersion)),
        (deliver(7, 1), Ok(None)),
        (deliver(7, 2), Err(Refusal::OtherTerm)),
        (join(2, 0, 2), Ok(Some(10))),
        (deliver(7, 2), Err(Refusal::OtherAcceptedTerm)),
        (deliver(10, 0), Ok(None)),
        (restart(0), Ok(None)),
        (deliver(9, 0), Err(Refusal::ElectionNotWon)),
        (deliver(10, 0), Err(Refusal::JoinNotStarted)),
    ]
}

#[test]
fn reasons_from_the_state(rt: HostRuntime) -> Result<(), Fail> {
    let mut log = empty_log(rt.alloc(), 64)?;
    let mut cluster = open(three(), 7);
    play(&rt, &mut cluster, &mut log, &electing());
    play(&rt, &mut cluster, &mut log, &publishing());
    play(&rt, &mut cluster, &mut log, &committing());
    Ok(())
}

#[test]
fn a_run_needs_bytes_that_fit(rt: HostRuntime) -> Result<(), Fail> {
    let turn = Turn {
        call: bootstrap(0),
        answer: Ok(Some(9)),
    };
    let mut turns = [turn; 2];
    let mut log = [7; 32];
    let ran = run(three(), setup(7, Majority), 1, &mut log, &mut turns);
    let Err(not_run) = ran else {
        return Err(Fail::new("it ran"));
    };
    assert_eq!(rt; not_run.refusal, Refusal::IllFormedLog);
    assert!(rt; not_run.bank.count() == 3);
    assert!(rt; log == [7; 32]);
    assert!(rt; turns == [turn; 2]);
    Ok(())
}

#[test]
fn a_shut_run_clears_the_log(rt: HostRuntime) -> Result<(), Fail> {
    let mut turns = [Turn {
        call: join(0, 0, 1),
        answer: Ok(Some(9)),
    }];
    let mut log = [7; 31];
    let ran = run(three(), setup(0, Majority), 1, &mut log, &mut turns);
    let Ok(cluster) = ran else {
        return Err(Fail::new("it did not run"));
    };
    let illegal = Some(Refusal::IllegalInitialConfiguration);
    assert_eq!(rt; cluster.refusal(), illegal);
    assert_eq!(rt; turns[0].answer, Err(Refusal::ClusterShut));
    let mut cleared = [0; 31];
    cleared[1] = 1;
    assert!(rt; log == cleared);
    Ok(())
}

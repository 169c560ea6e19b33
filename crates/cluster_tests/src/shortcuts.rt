//! Runs that would split the history under a shortcut in the rules, and where the rules stop them.
use crate::helpers::{bootstrap, deliver, empty_log, join, open, play, publish, setup, two};
use cluster::Cluster;
use protocol::Refusal;
use quorum::Weighted;
use std::test::Fail;

// Weights for two nodes.
fn weights(first: u8, second: u8) -> Weighted {
    let mut weights = [1; 16];
    weights[0] = first;
    weights[1] = second;
    Weighted::new(weights)
}

// Node 0 has accepted 2/2, node 1 only 0/2: by version alone node 1 would not be behind.
#[test]
fn joins_are_compared_by_term_first(rt: HostRuntime) -> Result<(), Fail> {
    let mut log = empty_log(rt.alloc(), 64)?;
    let mut cluster = open(two(1, 2), 1);
    let calls = [
        (bootstrap(1), Ok(None)),
        (join(0, 0, 2), Ok(Some(0))),
        (bootstrap(0), Ok(None)),
        (deliver(0, 0), Ok(None)),
        (publish(0, 2, 2, 59, 1), Ok(Some(1))),
        (deliver(1, 0), Ok(Some(2))),
        (deliver(2, 0), Ok(Some(3))),
        (join(1, 1, 3), Ok(Some(4))),
        (join(0, 1, 3), Ok(Some(5))),
        (deliver(5, 1), Err(Refusal::JoinerAhead)),
        (publish(1, 3, 3, 264, 1), Err(Refusal::ElectionNotWon)),
    ];
    play(&rt, &mut cluster, &mut log, &calls);
    Ok(())
}

// The response of node 1 alone is a quorum of the new configuration {1}, and not of {0, 1}.
#[test]
fn a_commit_needs_the_committed_configuration_too(rt: HostRuntime) -> Result<(), Fail> {
    let mut log = empty_log(rt.alloc(), 64)?;
    let mut cluster = Cluster::open(two(2, 1), setup(3, weights(4, 2)));
    let calls = [
        (bootstrap(0), Ok(None)),
        (join(0, 0, 2), Ok(Some(0))),
        (join(1, 0, 2), Ok(Some(1))),
        (deliver(1, 0), Ok(None)),
        (deliver(0, 0), Ok(None)),
        (publish(0, 2, 3, 603, 2), Ok(Some(2))),
        (deliver(2, 1), Ok(Some(3))),
        (deliver(3, 0), Ok(None)),
        (deliver(2, 0), Ok(Some(4))),
        (deliver(4, 0), Ok(Some(5))),
    ];
    play(&rt, &mut cluster, &mut log, &calls);
    Ok(())
}

// Two leaders of one term: node 1 has accepted {1}, but knows only {0} committed.
#[test]
fn an_election_needs_the_committed_configuration_too(rt: HostRuntime) -> Result<(), Fail> {
    let mut log = empty_log(rt.alloc(), 64)?;
    let mut cluster = Cluster::open(two(3, 1), setup(1, weights(2, 1)));
    let calls = [
        (bootstrap(0), Ok(None)),
        (join(0, 0, 4), Ok(Some(0))),
        (join(1, 0, 4), Ok(Some(1))),
        (deliver(1, 0), Ok(None)),
        (deliver(0, 0), Ok(None)),
        (publish(0, 4, 4, 447, 2), Ok(Some(2))),
        (join(0, 0, 5), Ok(Some(3))),
        (deliver(2, 1), Ok(Some(4))),
        (deliver(3, 0), Ok(None)),
        (publish(0, 5, 5, 222, 1), Ok(Some(5))),
        (join(1, 1, 5), Ok(Some(6))),
        (deliver(6, 1), Ok(None)),
        (publish(1, 5, 5, 44, 2), Err(Refusal::ElectionNotWon)),
    ];
    play(&rt, &mut cluster, &mut log, &calls);
    Ok(())
}

//! Decisions of a node among three, by majority.
use crate::Setup;
use protocol::{
    Accepted, Change, Commit, Effect, Join, Message, NodeState, Publication, Record, Refusal,
    Response, Volatile,
};
use quorum::{Majority, NodeSet};

fn setup() -> Setup<Majority> {
    Setup {
        rule: Majority,
        initial_configuration: NodeSet::from_bits(0x7),
        initial_value: 100,
    }
}

// Node 0, which has started a join in term 1 and accepted version 5 before any term.
fn candidate() -> NodeState {
    NodeState {
        kept: Record {
            current_term: 1,
            last_accepted_term: 0,
            last_accepted_version: 5,
            last_accepted_value: 100,
            last_accepted_configuration: NodeSet::from_bits(0x7),
            last_committed_configuration: NodeSet::from_bits(0x7),
        },
        volatile: Volatile {
            started_join: true,
            last_published_configuration: NodeSet::from_bits(0x7),
            ..Volatile::default()
        },
    }
}

// The same node as the leader that has accepted its own version 6.
fn leader() -> NodeState {
    let NodeState { kept, volatile } = candidate();
    NodeState {
        kept: Record {
            last_accepted_term: 1,
            last_accepted_version: 6,
            last_accepted_value: 118,
            ..kept
        },
        volatile: Volatile {
            join_votes: NodeSet::from_bits(0x3),
            election_won: true,
            last_published_version: 6,
            publish_votes: NodeSet::from_bits(0x1),
            ..volatile
        },
    }
}

fn join(source: u8, base_term: u32, base_version: u32) -> Message {
    Message::Join(Join {
        source,
        destination: 0,
        term: 1,
        base_term,
        base_version,
    })
}

#[test]
fn two_of_three_elect(rt: HostRuntime) {
    let mut node = candidate();
    let once = Volatile {
        join_votes: NodeSet::from_bits(0x1),
        ..node.volatile
    };
    let counted = setup().member(0, &node).deliver(&join(0, 0, 5));
    assert_eq!(rt;
        counted,
        Ok(Effect {
            change: None,
            volatile: once,
            message: None,
        })
    );
    node.volatile = once;
    let twice = Volatile {
        join_votes: NodeSet::from_bits(0x3),
        election_won: true,
        last_published_version: 5,
        ..once
    };
    let won = setup().member(0, &node).deliver(&join(1, 0, 4));
    assert_eq!(rt;
        won,
        Ok(Effect {
            change: None,
            volatile: twice,
            message: None,
        })
    );
}

#[test]
fn joins_that_are_not_counted(rt: HostRuntime) {
    let mut node = candidate();
    assert_eq!(rt;
        setup().member(0, &node).deliver(&join(2, 0, 6)),
        Err(Refusal::JoinerAhead)
    );
    assert_eq!(rt;
        setup().member(0, &node).deliver(&join(2, 1, 0)),
        Err(Refusal::JoinerAhead)
    );
    node.volatile.started_join = false;
    assert_eq!(rt;
        setup().member(0, &node).deliver(&join(2, 0, 6)),
        Err(Refusal::JoinNotStarted)
    );
}

#[test]
fn a_leader_reconfigures_one_change_at_a_time(rt: HostRuntime) {
    let setup = setup();
    let mut node = leader();
    let two = NodeSet::from_bits(0x3);
    let published = Publication {
        source: 0,
        term: 1,
        version: 7,
        base_term: 1,
        base_version: 6,
        value: 119,
        configuration: two,
        committed_configuration: NodeSet::from_bits(0x7),
    };
    let effect = Effect {
        change: None,
        volatile: Volatile {
            last_published_version: 7,
            last_published_configuration: two,
            publish_votes: NodeSet::empty(),
            ..node.volatile
        },
        message: Some(Message::Publication(published)),
    };
    assert_eq!(rt; setup.member(0, &node).publish(1, 7, 119, two), Ok(effect));
    let other = NodeSet::from_bits(0x4);
    assert_eq!(rt;
        setup.member(0, &node).publish(1, 7, 119, other),
        Err(Refusal::NoJoinQuorum)
    );
    node.kept.last_committed_configuration = NodeSet::from_bits(0xf);
    assert_eq!(rt;
        setup.member(0, &node).publish(1, 7, 119, other),
        Err(Refusal::ReconfigurationUnderWay)
    );
}

#[test]
fn a_publication_is_accepted_once(rt: HostRuntime) {
    let publication = Message::Publication(Publication {
        source: 0,
        term: 1,
        version: 6,
        base_term: 0,
        base_version: 5,
        value: 118,
        configuration: NodeSet::from_bits(0x3),
        committed_configuration: NodeSet::from_bits(0x7),
    });
    let node = candidate();
    let effect = Effect {
        change: Some(Change::Accept(Accepted {
            term: 1,
            version: 6,
            value: 118,
            configuration: NodeSet::from_bits(0x3),
            committed_configuration: NodeSet::from_bits(0x7),
        })),
        volatile: node.volatile,
        message: Some(Message::Response(Response {
            source: 2,
            destination: 0,
            term: 1,
            version: 6,
        })),
    };
    assert_eq!(rt; setup().member(2, &node).deliver(&publication), Ok(effect));
    assert_eq!(rt;
        setup().member(2, &leader()).deliver(&publication),
        Err(Refusal::AlreadyAccepted)
    );
}

#[test]
fn a_leader_commits_its_last_publication_only(rt: HostRuntime) {
    let commit = Commit {
        source: 0,
        term: 1,
        version: 6,
    };
    let mut node = leader();
    let response = Message::Response(Response {
        source: 1,
        destination: 0,
        term: 1,
        version: 6,
    });
    let decided = Effect {
        change: None,
        volatile: Volatile {
            publish_votes: NodeSet::from_bits(0x3),
            ..node.volatile
        },
        message: Some(Message::Commit(commit)),
    };
    assert_eq!(rt; setup().member(0, &node).deliver(&response), Ok(decided));
    node.volatile.last_published_version = 7;
    assert_eq!(rt;
        setup().member(0, &node).deliver(&Message::Commit(commit)),
        Err(Refusal::NewerPublished)
    );
}

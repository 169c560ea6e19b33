//! What the tests share.
use cluster::{Answer, Call, Cluster, Setup};
use message_log::clear;
use protocol::{NodeState, Record, Refusal, Term, Value, Version, Volatile};
use quorum::{Majority, NodeSet, VotingRule};
use std::alloc::Global;
use std::process::Abort;
use std::test::Fail;
use store::{Bank, Pair, PlainStore, Power, Single};

pub(crate) type Plain = Single<PlainStore>;

/// A call, and what it must answer.
pub(crate) type Line = (Call, Answer);

/// Enough for a write to any store.
pub(crate) const ENOUGH: Power = Power {
    budget: 21,
    residue: 0,
};

/// A record with these numbers, in order.
pub(crate) fn record(
    term: Term,
    accepted_term: Term,
    version: Version,
    value: Value,
    configuration: u16,
    committed: u16,
) -> Record {
    Record {
        current_term: term,
        last_accepted_term: accepted_term,
        last_accepted_version: version,
        last_accepted_value: value,
        last_accepted_configuration: NodeSet::from_bits(configuration),
        last_committed_configuration: NodeSet::from_bits(committed),
    }
}

/// The record of a fresh node, where the initial value is 100.
pub(crate) fn fresh(version: Version) -> Record {
    record(0, 0, version, 100, 0, 0)
}

/// The volatile values of a node that holds no votes and has started no join.
pub(crate) fn restarted(configuration: u16) -> Volatile {
    Volatile {
        last_published_configuration: NodeSet::from_bits(configuration),
        ..Volatile::default()
    }
}

/// The volatile values of a leader.
pub(crate) fn leading(
    votes: u16,
    version: Version,
    configuration: u16,
    publish_votes: u16,
) -> Volatile {
    Volatile {
        join_votes: NodeSet::from_bits(votes),
        started_join: true,
        election_won: true,
        last_published_version: version,
        last_published_configuration: NodeSet::from_bits(configuration),
        publish_votes: NodeSet::from_bits(publish_votes),
    }
}

/// One store as a bank.
// In both test crates: a public function of `store` would say no more than the field does.
pub(crate) fn single<S>(store: S) -> Single<S> {
    Single { store }
}

pub(crate) fn plain(record: Record) -> Plain {
    single(PlainStore::new(record))
}

/// Three fresh plain stores.
pub(crate) fn three() -> Pair<Plain, Pair<Plain, Plain>> {
    Pair {
        left: plain(fresh(5)),
        right: Pair {
            left: plain(fresh(5)),
            right: plain(fresh(6)),
        },
    }
}

/// Two fresh plain stores.
pub(crate) fn two(left: Version, right: Version) -> Pair<Plain, Plain> {
    Pair {
        left: plain(fresh(left)),
        right: plain(fresh(right)),
    }
}

/// The bytes of a ring with two slots that holds a fresh record.
pub(crate) fn fresh_ring(version: u8) -> [u8; 43] {
    let mut bytes = [0; 43];
    bytes[0] = 2;
    bytes[1] = 16;
    bytes[18] = version;
    bytes[22] = 100;
    bytes
}

/// What is fixed where the initial value is 100.
pub(crate) fn setup<R>(configuration: u16, rule: R) -> Setup<R> {
    Setup {
        rule,
        initial_configuration: NodeSet::from_bits(configuration),
        initial_value: 100,
    }
}

pub(crate) fn open<B: Bank>(bank: B, configuration: u16) -> Cluster<B, Majority> {
    Cluster::open(bank, setup(configuration, Majority))
}

/// A cleared log.
pub(crate) fn empty_log(heap: Global, capacity: u16) -> Result<Vec<u8>, Fail> {
    let mut log = vec![in heap; 0; 4 + 27 * usize::from(capacity)]?;
    clear(&mut log, capacity)?;
    Ok(log)
}

pub(crate) fn bootstrap(node: u8) -> Call {
    Call::Bootstrap {
        node,
        power: ENOUGH,
    }
}

pub(crate) fn join(node: u8, leader: u8, term: Term) -> Call {
    Call::StartJoin {
        node,
        leader,
        term,
        power: ENOUGH,
    }
}

pub(crate) fn publish(
    node: u8,
    term: Term,
    version: Version,
    value: Value,
    configuration: u16,
) -> Call {
    Call::Publish {
        node,
        term,
        version,
        value,
        configuration: NodeSet::from_bits(configuration),
    }
}

pub(crate) fn deliver(entry: u16, node: u8) -> Call {
    Call::Deliver {
        entry,
        node,
        power: ENOUGH,
    }
}

pub(crate) fn restart(node: u8) -> Call {
    Call::Restart { node }
}

/// Makes the calls, and compares each answer.
pub(crate) fn play<B: Bank, R: VotingRule>(
    rt: &impl Abort,
    cluster: &mut Cluster<B, R>,
    log: &mut [u8],
    lines: &[Line],
) {
    for (call, answer) in lines {
        assert_eq!(rt; cluster.call(*call, log), *answer);
    }
}

/// The call is refused, and the log and three nodes stay as they are.
pub(crate) fn refused<B: Bank>(
    rt: &(impl Abort + AllocGlobal),
    cluster: &mut Cluster<B, Majority>,
    log: &mut [u8],
    call: Call,
    refusal: Refusal,
) -> Result<(), Fail> {
    let bytes = log.to_vec(rt.alloc())?;
    let nodes = [cluster.node(0), cluster.node(1), cluster.node(2)];
    assert_eq!(rt; cluster.call(call, log), Err(refusal));
    assert!(rt; bytes.as_slice() == &*log);
    for (number, node) in (0..3).zip(nodes) {
        assert_eq!(rt; cluster.node(number), node);
    }
    Ok(())
}

/// Two nodes elect node 0 in term 1.
pub(crate) fn election() -> [Line; 6] {
    [
        (bootstrap(0), Ok(None)),
        (bootstrap(1), Ok(None)),
        (join(0, 0, 1), Ok(Some(0))),
        (join(1, 0, 1), Ok(Some(1))),
        (deliver(0, 0), Ok(None)),
        (deliver(1, 0), Ok(None)),
    ]
}

pub(crate) fn state(kept: Record, volatile: Volatile) -> NodeState {
    NodeState { kept, volatile }
}

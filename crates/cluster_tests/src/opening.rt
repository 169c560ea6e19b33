//! What a cluster can be opened over.
use crate::helpers::{
    bootstrap, deliver, fresh, fresh_ring, join, open, plain, play, publish, record, restart,
    single, three,
};
use protocol::Refusal;
use std::alloc::{AllocError, Global};
use std::process::Abort;
use std::test::Fail;
use store::{Bank, Pair, PlainStore, RingStore};
use store_tests::VecBank;

// Why a cluster over the bank is refused, if it is.
fn refusal<B: Bank + Drop>(bank: B, configuration: u16) -> Option<Refusal> {
    open(bank, configuration).refusal()
}

fn fresh_stores(heap: Global, count: u8) -> Result<VecBank<PlainStore>, AllocError> {
    let stores = vec![in heap; PlainStore::new(fresh(5)); usize::from(count)]?;
    Ok(VecBank { stores })
}

#[test]
fn unsound_comes_before_too_many(rt: HostRuntime) -> Result<(), Fail> {
    let mut bytes = [0; 3];
    let bank = Pair {
        left: fresh_stores(rt.alloc(), 16)?,
        right: single(RingStore::new(&mut bytes)),
    };
    assert_eq!(rt; refusal(bank, 0), Some(Refusal::UnsoundStore));
    Ok(())
}

#[test]
fn counts_and_configurations(rt: HostRuntime) -> Result<(), Fail> {
    // stores, initial configuration, refusal
    for (stores, configuration, expected) in [
        (17, 0, Some(Refusal::TooManyStores)),
        (17, 1, Some(Refusal::TooManyStores)),
        (16, 0xffff, None),
        (16, 0, Some(Refusal::IllegalInitialConfiguration)),
        (15, 0xffff, Some(Refusal::IllegalInitialConfiguration)),
        (3, 8, Some(Refusal::IllegalInitialConfiguration)),
        (3, 4, None),
        (0, 1, Some(Refusal::IllegalInitialConfiguration)),
    ] {
        let bank = fresh_stores(rt.alloc(), stores)?;
        assert_eq!(rt; refusal(bank, configuration), expected);
    }
    assert_eq!(rt; refusal(three(), 7), None);
    Ok(())
}

#[test]
fn stores_are_fresh(rt: HostRuntime) {
    for used in [
        record(1, 0, 5, 100, 0, 0),
        record(0, 1, 5, 100, 0, 0),
        record(0, 0, 5, 101, 0, 0),
        record(0, 0, 5, 100, 1, 0),
        record(0, 0, 5, 100, 0, 1),
    ] {
        let first = Pair {
            left: plain(used),
            right: plain(fresh(5)),
        };
        assert_eq!(rt; refusal(first, 3), Some(Refusal::StoreNotFresh));
        let last = Pair {
            left: plain(fresh(0)),
            right: plain(used),
        };
        assert_eq!(rt; refusal(last, 3), Some(Refusal::StoreNotFresh));
        // an illegal configuration comes before
        let illegal = Some(Refusal::IllegalInitialConfiguration);
        assert_eq!(rt; refusal(plain(used), 2), illegal);
    }
    assert_eq!(rt; refusal(plain(fresh(u32::MAX)), 1), None);
}

// A shut cluster over a ring that has been in use answers each call with the same refusal.
fn stays_shut(rt: &impl Abort, log: [u8; 31]) {
    let mut bytes = fresh_ring(5);
    bytes[6] = 1;
    let mut lent = bytes;
    let mut lent_log = log;
    let mut cluster = open(single(RingStore::new(&mut lent)), 1);
    assert_eq!(rt; cluster.refusal(), Some(Refusal::StoreNotFresh));
    let shut = Err(Refusal::ClusterShut);
    let lines = [
        (bootstrap(0), shut),
        (join(0, 0, 2), shut),
        (publish(0, 1, 6, 118, 1), shut),
        (deliver(0, 0), shut),
        (restart(0), shut),
        (bootstrap(1), shut),
    ];
    play(rt, &mut cluster, &mut lent_log, &lines);
    assert_eq!(rt; cluster.node(0), Err(Refusal::ClusterShut));
    assert!(rt; lent == bytes);
    assert!(rt; lent_log == log);
}

#[test]
fn a_shut_cluster_touches_nothing(rt: HostRuntime) {
    let mut log = [0; 31];
    log[1] = 1;
    stays_shut(&rt, log);
    stays_shut(&rt, [7; 31]);
}

//! Clusters over stores of different makes.
use crate::helpers::{
    ENOUGH, bootstrap, deliver, election, empty_log, fresh, fresh_ring, join, open, plain, play,
    publish, record, restarted, single,
};
use cluster::Cluster;
use protocol::Refusal;
use quorum::Majority;
use std::process::Abort;
use std::test::Fail;
use store::{Bank, Pair, Power, RingStore};
use store_tests::{FickleStore, VecBank};

// Three nodes elect node 0, accept what it publishes, and mark it as committed.
fn agree<B: Bank>(
    rt: &(impl Abort + AllocGlobal),
    cluster: &mut Cluster<B, Majority>,
) -> Result<(), Fail> {
    let mut log = empty_log(rt.alloc(), 8)?;
    play(rt, cluster, &mut log, &election());
    let publication = [
        (bootstrap(2), Ok(None)),
        (join(2, 0, 1), Ok(Some(2))),
        (deliver(2, 0), Ok(None)),
        (publish(0, 1, 6, 118, 3), Ok(Some(3))),
        (deliver(3, 0), Ok(Some(4))),
        (deliver(3, 1), Ok(Some(5))),
        (deliver(3, 2), Ok(Some(6))),
        (deliver(4, 0), Ok(None)),
        (deliver(5, 0), Ok(Some(7))),
        (deliver(6, 0), Ok(Some(7))),
    ];
    play(rt, cluster, &mut log, &publication);
    for node in 0..3 {
        assert_eq!(rt; cluster.node(node)?.kept, record(1, 1, 6, 118, 3, 7));
        play(rt, cluster, &mut log, &[(deliver(7, node), Ok(None))]);
        assert_eq!(rt; cluster.node(node)?.kept, record(1, 1, 6, 118, 3, 3));
    }
    Ok(())
}

// A ring after four writes: slot 0 holds the record, slot 1 the one before it.
const WRITTEN: &[u8; 43] = b"\x02\x10\x00\
    \x00\x00\x00\x01\
    \x00\x00\x00\x01\
    \x00\x00\x00\x01\x00\x00\x00\x06\x00\x00\x00\x76\x00\x03\x00\x03\
    \x00\x00\x00\x01\x00\x00\x00\x06\x00\x00\x00\x76\x00\x03\x00\x07";

#[test]
fn a_plain_store_a_ring_and_a_foreign_store(rt: HostRuntime) -> Result<(), Fail> {
    let mut bytes = fresh_ring(5);
    let bank = Pair {
        left: plain(fresh(5)),
        right: Pair {
            left: single(RingStore::new(&mut bytes)),
            right: single(FickleStore::new(fresh(5))),
        },
    };
    let mut cluster = open(bank, 7);
    agree(&rt, &mut cluster)?;
    assert!(rt; bytes == *WRITTEN);
    Ok(())
}

// A cluster over a ring in these bytes and two foreign stores.
fn over_ring_and_foreign_bank(
    rt: &(impl Abort + AllocGlobal),
    bytes: &mut [u8],
) -> Result<(), Fail> {
    let stores = vec![in rt.alloc(); FickleStore::new(fresh(5)); 2]?;
    let bank = Pair {
        left: single(RingStore::new(bytes)),
        right: VecBank { stores },
    };
    let mut cluster = open(bank, 7);
    agree(rt, &mut cluster)?;
    cut_foreign(rt, &mut cluster)
}

#[test]
fn a_ring_beside_a_foreign_bank(rt: HostRuntime) -> Result<(), Fail> {
    let mut bytes = fresh_ring(5);
    over_ring_and_foreign_bank(&rt, &mut bytes)?;
    assert!(rt; bytes == *WRITTEN);
    Ok(())
}

// A cut write to node 2's foreign store keeps one of the two records, and the node goes on.
fn cut_foreign<B: Bank>(
    rt: &(impl Abort + AllocGlobal),
    cluster: &mut Cluster<B, Majority>,
) -> Result<(), Fail> {
    let mut log = empty_log(rt.alloc(), 1)?;
    let power = Power {
        budget: 6,
        residue: 0,
    };
    let cut = cluster.start_join(2, 0, 2, power, &mut log);
    assert_eq!(rt; cut, Err(Refusal::WriteUnfinished));
    let node = cluster.node(2)?;
    let old = record(1, 1, 6, 118, 3, 3);
    let new = record(2, 1, 6, 118, 3, 3);
    assert!(rt; node.kept == old || node.kept == new);
    assert_eq!(rt; node.volatile, restarted(3));
    let again = cluster.start_join(2, 0, 3, ENOUGH, &mut log);
    assert_eq!(rt; again, Ok(Some(0)));
    Ok(())
}

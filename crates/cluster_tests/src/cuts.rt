//! Writes to a ring, cut at every budget.
use crate::helpers::{
    Line, bootstrap, deliver, fresh, fresh_ring, join, leading, open, plain, play, publish, record,
    restarted, single, state,
};
use cluster::Call;
use message_log::clear;
use protocol::{Record, Refusal, Volatile};
use std::process::Abort;
use std::test::Fail;
use store::{Pair, Power, RingStore};

// Node 0, over a ring, is elected with node 1, over a plain store, and shrinks the configuration
// to itself.
fn lines() -> [Line; 12] {
    [
        (bootstrap(0), Ok(None)),
        (bootstrap(1), Ok(None)),
        (join(0, 0, 1), Ok(Some(0))),
        (join(1, 0, 1), Ok(Some(1))),
        (deliver(0, 0), Ok(None)),
        (deliver(1, 0), Ok(None)),
        (publish(0, 1, 6, 118, 1), Ok(Some(2))),
        (deliver(2, 0), Ok(Some(3))),
        (deliver(2, 1), Ok(Some(4))),
        (deliver(3, 0), Ok(None)),
        (deliver(4, 0), Ok(Some(5))),
        (deliver(5, 0), Ok(None)),
    ]
}

// A write of node 0 that is cut.
#[derive(Clone, Copy)]
struct Write {
    /// Which line makes it.
    line: usize,
    old: Record,
    new: Record,
    /// The volatile values where it finishes.
    volatile: Volatile,
}

fn with_power(mut call: Call, power: Power) -> Call {
    if let Call::StartJoin { power: old, .. } | Call::Deliver { power: old, .. } = &mut call {
        *old = power;
    }
    call
}

fn cut(rt: &impl Abort, write: &Write, power: Power) -> Result<(), Fail> {
    let mut bytes = fresh_ring(5);
    let mut log = [0; 166];
    clear(&mut log, 6)?;
    let bank = Pair {
        left: single(RingStore::new(&mut bytes)),
        right: plain(fresh(5)),
    };
    let mut cluster = open(bank, 3);
    let lines = lines();
    assert!(rt; write.line < 12);
    play(rt, &mut cluster, &mut log, &lines[..write.line]);
    assert_eq!(rt; cluster.node(0)?.kept, write.old);
    let other = cluster.node(1);
    let before = log;
    let (call, finished) = lines[write.line];
    let answer = cluster.call(with_power(call, power), &mut log);
    assert_eq!(rt; cluster.node(1), other);
    if power.budget == 21 {
        assert_eq!(rt; answer, finished);
        assert_eq!(rt; cluster.node(0), Ok(state(write.new, write.volatile)));
        return Ok(());
    }
    assert_eq!(rt; answer, Err(Refusal::WriteUnfinished));
    assert!(rt; log == before);
    let landed = power.budget == 20 && power.residue == 3;
    let kept = if landed { write.new } else { write.old };
    let configuration = kept.last_accepted_configuration.bits();
    assert_eq!(rt; cluster.node(0), Ok(state(kept, restarted(configuration))));
    Ok(())
}

fn cut_everywhere(rt: &impl Abort, write: &Write) -> Result<(), Fail> {
    for budget in 0..22 {
        for residue in 2..4 {
            cut(rt, write, Power { budget, residue })?;
        }
    }
    Ok(())
}

#[test]
fn a_start_join_is_cut(rt: HostRuntime) -> Result<(), Fail> {
    cut_everywhere(
        &rt,
        &Write {
            line: 2,
            old: record(0, 0, 5, 100, 3, 3),
            new: record(1, 0, 5, 100, 3, 3),
            volatile: Volatile {
                started_join: true,
                ..restarted(3)
            },
        },
    )
}

#[test]
fn accepting_a_publication_is_cut(rt: HostRuntime) -> Result<(), Fail> {
    cut_everywhere(
        &rt,
        &Write {
            line: 7,
            old: record(1, 0, 5, 100, 3, 3),
            new: record(1, 1, 6, 118, 1, 3),
            volatile: leading(3, 6, 1, 0),
        },
    )
}

#[test]
fn marking_a_commit_is_cut(rt: HostRuntime) -> Result<(), Fail> {
    cut_everywhere(
        &rt,
        &Write {
            line: 11,
            old: record(1, 1, 6, 118, 1, 3),
            new: record(1, 1, 6, 118, 1, 1),
            volatile: leading(3, 6, 1, 3),
        },
    )
}

//! Runs the worked run of docs/PROTOCOL.md, and prints the answer of each call.
#![tactic(auto)]

use anyhow::Context;
use cluster::{Answer, Call, Setup, Turn, run};
use protocol::{Record, Refusal, Term, Value, Version};
use quorum::{Majority, NodeSet};
use std::io;
use store::{Pair, PlainStore, Power, Single};

type Plain = Single<PlainStore>;

const CAPACITY: u16 = 64;

/// The bytes of a log with that capacity.
const LOG_LENGTH: usize = 1732;

const INITIAL_VALUE: Value = 100;

/// Enough for a write to a plain store.
const ENOUGH: Power = Power {
    budget: 1,
    residue: 0,
};

fn everyone() -> NodeSet {
    NodeSet::from_bits(7)
}

/// A store with the record of a fresh node.
fn fresh(version: Version) -> Plain {
    let content = Record {
        last_accepted_version: version,
        last_accepted_value: INITIAL_VALUE,
        ..Record::default()
    };
    Single {
        store: PlainStore::new(content),
    }
}

fn three_stores() -> Pair<Plain, Pair<Plain, Plain>> {
    Pair {
        left: fresh(5),
        right: Pair {
            left: fresh(5),
            right: fresh(6),
        },
    }
}

/// A turn that has not been taken.
fn turn(call: Call) -> Turn {
    Turn {
        call,
        answer: Err(Refusal::ClusterShut),
    }
}

fn bootstrap(node: u8) -> Turn {
    turn(Call::Bootstrap {
        node,
        power: ENOUGH,
    })
}

fn start_join(node: u8, leader: u8, term: Term) -> Turn {
    turn(Call::StartJoin {
        node,
        leader,
        term,
        power: ENOUGH,
    })
}

fn publish(node: u8, term: Term, version: Version, value: Value) -> Turn {
    turn(Call::Publish {
        node,
        term,
        version,
        value,
        configuration: everyone(),
    })
}

fn deliver(entry: u16, node: u8) -> Turn {
    turn(Call::Deliver {
        entry,
        node,
        power: ENOUGH,
    })
}

fn worked_run() -> [Turn; 13] {
    [
        bootstrap(0),
        bootstrap(1),
        start_join(0, 0, 1),
        start_join(1, 0, 1),
        deliver(0, 0),
        deliver(1, 0),
        publish(0, 1, 6, 118),
        deliver(2, 0),
        deliver(2, 1),
        deliver(3, 0),
        deliver(4, 0),
        deliver(4, 0),
        deliver(2, 1),
    ]
}

fn print_answer(rt: &HostRuntime, answer: Answer) -> io::Result<()> {
    match answer {
        Ok(Some(entry)) => println!(rt; "ok {entry}"),
        Ok(None) => println!(rt; "ok -"),
        Err(refusal) => println!(rt; "no {refusal}"),
    }
}

fn main(rt: HostRuntime) -> anyhow::Result<()> {
    let mut log = [0; LOG_LENGTH];
    let mut turns = worked_run();
    let setup = Setup {
        rule: Majority,
        initial_configuration: everyone(),
        initial_value: INITIAL_VALUE,
    };
    run(three_stores(), setup, CAPACITY, &mut log, &mut turns)
        .ok()
        .context("the log has not the length of its capacity")?;
    for turn in turns {
        print_answer(&rt, turn.answer)?;
    }
    Ok(())
}

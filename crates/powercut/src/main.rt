//! Cuts one write to a ring at every budget, and prints what the ring then reads, and its bytes.
#![tactic(auto)]

use protocol::{Accepted, Record};
use quorum::NodeSet;
use std::io;
use store::{Power, RingStore, Store};

/// The bytes of a ring of two slots.
const SIZE: usize = 43;

/// Enough for any write.
const ENOUGH: Power = Power {
    budget: 21,
    residue: 0,
};

fn first() -> Accepted {
    Accepted {
        term: 4,
        version: 3,
        value: 0x0a0b0c0d,
        configuration: NodeSet::from_bits(7),
        committed_configuration: NodeSet::from_bits(3),
    }
}

fn second() -> Accepted {
    Accepted {
        term: 5,
        version: 4,
        value: 0x1a1b1c1d,
        configuration: NodeSet::from_bits(15),
        committed_configuration: NodeSet::from_bits(7),
    }
}

/// The header, the two terms and the two states.
fn print_bytes(rt: &HostRuntime, bytes: &[u8; SIZE]) -> io::Result<()> {
    for (i, byte) in bytes.iter().enumerate() {
        if matches!(i, 3 | 7 | 11 | 27) {
            print!(rt; " ")?;
        }
        print!(rt; "{byte:02x}")?;
    }
    println!(rt; "")
}

/// The record's six numbers in order, in hexadecimal.
fn print_record(rt: &HostRuntime, record: Record) -> io::Result<()> {
    print!(rt;
        "{:x} {:x} {:x} {:x} {:x} {:x}",
        record.current_term,
        record.last_accepted_term,
        record.last_accepted_version,
        record.last_accepted_value,
        record.last_accepted_configuration.bits(),
        record.last_committed_configuration.bits()
    )
}

/// Writes the second record to a copy of the ring, under this power.
fn cut(rt: &HostRuntime, mut bytes: [u8; SIZE], power: Power) -> io::Result<()> {
    let mut ring = RingStore::new(&mut bytes);
    let answer = if ring.accept(second(), power) {
        "finished"
    } else {
        "unfinished"
    };
    let record = ring.read();
    let Power { budget, residue } = power;
    print!(rt; "{budget:2} {residue:02x} {answer:10} ")?;
    print_record(rt, record)?;
    print!(rt; " | ")?;
    print_bytes(rt, &bytes)
}

fn main(rt: HostRuntime) -> io::Result<()> {
    let mut bytes = [0u8; SIZE];
    bytes[0] = 2;
    bytes[1] = 16;
    let mut ring = RingStore::new(&mut bytes);
    let _ = ring.accept(first(), ENOUGH);
    let _ = ring.set_term(0x05060708, ENOUGH);
    for budget in 0..22 {
        for residue in 0xee..0xf0 {
            cut(&rt, bytes, Power { budget, residue })?;
        }
    }
    Ok(())
}

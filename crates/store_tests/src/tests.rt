use crate::fickle::FickleStore;
use crate::pinned::single;
use crate::vec_bank::VecBank;
use protocol::{Accepted, Change, Record};
use quorum::NodeSet;
use std::process::Abort;
use std::test::Fail;
use store::{Bank, Pair, PlainStore, Power, RingStore, Single, Store};

const FULL: Power = Power {
    budget: 65535,
    residue: 1,
};

/// A sound ring of two slots that holds zeros.
fn ring_of_zeros() -> [u8; 43] {
    let mut bytes = [0; 43];
    bytes[0] = 2;
    bytes[1] = 16;
    bytes
}

fn accepted() -> Accepted {
    Accepted {
        term: 3,
        version: 4,
        value: 0x01020304,
        configuration: NodeSet::from_bits(7),
        committed_configuration: NodeSet::from_bits(3),
    }
}

/// Zeros behind this header make an unsound ring, which reads as zeros, and no write touches a byte.
fn is_unsound(rt: &impl Abort, bytes: &mut [u8], header: [u8; 3]) {
    for (byte, new) in bytes.iter_mut().zip(header) {
        *byte = new;
    }
    let mut ring = RingStore::new(&mut *bytes);
    assert!(rt; !ring.is_sound());
    assert_eq!(rt; ring.read(), Record::default());
    assert!(rt; !ring.set_term(9, FULL));
    assert!(rt; !ring.accept(accepted(), FULL));
    assert!(rt; !ring.mark(FULL));
    assert_eq!(rt; ring.read(), Record::default());
    for (place, byte) in bytes.iter().enumerate() {
        assert_eq!(rt; *byte, header.get(place).copied().unwrap_or(0));
    }
}

#[test]
fn wrong_width(rt: HostRuntime) {
    is_unsound(&rt, &mut [0; 43], [2, 15, 0]);
}

#[test]
fn one_slot_and_seventeen(rt: HostRuntime) {
    is_unsound(&rt, &mut [0; 23], [1, 16, 0]);
    is_unsound(&rt, &mut [0; 343], [17, 16, 0]);
}

#[test]
fn slot_number_equal_to_the_count(rt: HostRuntime) {
    is_unsound(&rt, &mut [0; 43], [2, 16, 2]);
}

#[test]
fn short_long_and_empty(rt: HostRuntime) {
    is_unsound(&rt, &mut [0; 42], [2, 16, 0]);
    is_unsound(&rt, &mut [0; 44], [2, 16, 0]);
    is_unsound(&rt, &mut [0; 0], [2, 16, 0]);
}

#[test]
fn budget_of_the_write_size_finishes(rt: HostRuntime) {
    let mut bytes = ring_of_zeros();
    let mut ring = RingStore::new(&mut bytes);
    let power = Power {
        budget: 21,
        residue: 2,
    };
    assert!(rt; ring.accept(accepted(), power));
    assert_eq!(rt; ring.read().last_accepted_value, 0x01020304);
    assert!(rt; ring.mark(power));
    assert_eq!(rt; ring.read().last_committed_configuration.bits(), 7);
}

#[test]
fn a_foreign_store_keeps_either_record(rt: HostRuntime) {
    let cut = Power {
        budget: 6,
        residue: 0,
    };
    let mut store = FickleStore::new(Record::default());
    assert!(rt; !store.set_term(5, cut));
    assert_eq!(rt; store.read().current_term, 0);
    assert!(rt; !store.set_term(5, cut));
    assert_eq!(rt; store.read().current_term, 5);
}

/// The current term in a store of the bank, if it is there.
fn current_term(bank: &mut impl Bank, at: u16) -> Option<u32> {
    bank.read(at).map(|record| record.current_term)
}

#[test]
fn a_plain_store_beside_two_rings(rt: HostRuntime) {
    let mut first = ring_of_zeros();
    let mut second = [0; 3];
    let mut bank = Pair {
        left: single(PlainStore::new(Record::default())),
        right: Pair {
            left: single(RingStore::new(&mut first)),
            right: single(RingStore::new(&mut second)),
        },
    };
    assert!(rt; bank.count() == 3);
    assert!(rt; !bank.all_sound());
    assert_eq!(rt; bank.is_sound(1), Some(true));
    assert_eq!(rt; bank.is_sound(2), Some(false));
    assert_eq!(rt; bank.is_sound(3), None);
    assert_eq!(rt; bank.write(1, Change::Term(8), FULL), Some(true));
    assert_eq!(rt; bank.write(2, Change::Term(8), FULL), Some(false));
    assert_eq!(rt; bank.write(3, Change::Term(8), FULL), None);
    assert_eq!(rt; current_term(&mut bank, 0), Some(0));
    assert_eq!(rt; current_term(&mut bank, 1), Some(8));
}

#[test]
fn a_foreign_bank_beside_ours(rt: HostRuntime) -> Result<(), Fail> {
    let stores = [
        FickleStore::new(Record::default()),
        FickleStore::new(Record::default()),
    ]
    .to_vec(rt.alloc())?;
    let mut bank = Pair {
        left: VecBank { stores },
        right: single(PlainStore::new(Record::default())),
    };
    assert!(rt; bank.count() == 3);
    assert!(rt; bank.all_sound());
    assert_eq!(rt; bank.write(1, Change::Term(8), FULL), Some(true));
    assert_eq!(rt; bank.write(2, Change::Term(9), FULL), Some(true));
    assert_eq!(rt; current_term(&mut bank, 2), Some(9));
    assert!(rt; bank.read(3).is_none());
    Ok(())
}

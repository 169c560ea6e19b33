//! What is a log, and what is none.
use message_log::{Fault, clear, count, kilqaros_log_clear, kilqaros_log_count, look_up};
use std::alloc::{AllocError, Global};
use std::test::Fail;

// `length` bytes that open with these sizes.
fn log(heap: Global, length: usize, capacity: u16, count: u16) -> Result<Vec<u8>, AllocError> {
    let [c1, c0] = capacity.to_be_bytes();
    let [m1, m0] = count.to_be_bytes();
    let mut bytes = [c1, c0, m1, m0].to_vec(heap)?;
    bytes.resize(length, 0)?;
    Ok(bytes)
}

#[test]
fn sizes_decide_what_is_a_log(rt: HostRuntime) -> Result<(), Fail> {
    // length, capacity, count, and whether this is a log
    for (length, capacity, entries, good) in [
        (0, 0, 0, false),
        (3, 1, 0, false),
        (4, 0, 0, false),
        (30, 1, 0, false),
        (31, 1, 0, true),
        (32, 1, 0, false),
        (31, 1, 1, true),
        (31, 1, 2, false),
        (55_299, 2048, 2048, false),
        (55_300, 2048, 0, true),
        (55_300, 2048, 2048, true),
        (55_300, 2048, 2049, false),
        (55_301, 2048, 2048, false),
        (55_327, 2049, 0, false),
        (55_327, 2049, 2049, false),
    ] {
        let bytes = log(rt.alloc(), length, capacity, entries)?;
        let expected = if good {
            Ok(entries)
        } else {
            Err(Fault::IllFormedLog)
        };
        assert_eq!(rt; count(&bytes), expected);
        let number = kilqaros_log_count(&bytes);
        assert_eq!(rt; number, if good { entries } else { 65_535 });
        match look_up(&bytes, entries) {
            Ok(found) => assert!(rt; good && found.is_none()),
            Err(fault) => assert!(rt; !good && fault == Fault::IllFormedLog),
        }
    }
    Ok(())
}

#[test]
fn clearing_fits_or_touches_nothing(rt: HostRuntime) -> Result<(), Fail> {
    // length, capacity, and whether the two fit
    for (length, capacity, good) in [
        (4, 0, false),
        (30, 1, false),
        (31, 1, true),
        (32, 1, false),
        (31, 0, false),
        (55_300, 2048, true),
        (55_327, 2049, false),
        (0, 1, false),
    ] {
        let mut bytes = vec![in rt.alloc(); 7u8; length]?;
        assert_eq!(rt; clear(&mut bytes, capacity).is_ok(), good);
        let cleared = capacity.to_be_bytes();
        for (place, byte) in bytes.iter().enumerate() {
            let expected = if good {
                cleared.get(place).copied().unwrap_or(0)
            } else {
                7
            };
            assert_eq!(rt; *byte, expected);
        }
        assert_eq!(rt;
            kilqaros_log_clear(&mut bytes, capacity),
            if good { 0 } else { 2 }
        );
    }
    Ok(())
}

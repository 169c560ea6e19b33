//! Code over any bank: what is read after a write that may be cut.
ghost use Rattle.store_tests.specs.Generic.{ReadAfter};

use protocol::{Change, Record};
use store::{Bank, Power};

/// Writes, and reads what is then there.
pub fn write_and_read<B: Bank>(
    bank: &mut B,
    at: u16,
    change: Change,
    power: Power,
) -> Option<Record>
    ensures { ReadAfter (B.meaning bank.old) at change power result }
{
    let _ = bank.write(at, change, power);
    bank.read(at)
}

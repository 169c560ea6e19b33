//! What the radio firmware, which is in C, calls by the exports of `message_log_c`.
ghost use Rattle.std.specs.Prelude.{◌≡◌};
ghost use Rattle.message_log.specs.Log.{clear_to, count_in};
ghost use Rattle.message_log.specs.Firmware.{clear_code, count_code};

use crate::clearing::clear;
use crate::fault::Fault;
use crate::header::count;
use protocol::Refusal;

/// What counting answers where there is no log: C has no `Result`.
const NO_LOG: u16 = 65535;

/// Clears a log: 0, or the number of the refusal, with nothing touched.
pub fn kilqaros_log_clear(bytes: &mut [u8], capacity: u16) -> u8
    ensures answer { result ≡ clear_code (clear_to bytes.old capacity).answer }
    ensures bytes { bytes.new ≡ (clear_to bytes.old capacity).bytes }
{
    // Numbers for the answers, since the caller is in C.
    match clear(bytes, capacity) {
        Ok(()) => 0,
        Err(fault) => Refusal::from(fault).into(),
    }
}

/// Counts the entries of a log; 65,535 where there is no log.
pub fn kilqaros_log_count(bytes: &[u8]) -> u16
    ensures { result ≡ count_code (count_in bytes.now) }
{
    count(bytes).unwrap_or(NO_LOG)
}

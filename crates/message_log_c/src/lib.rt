//! The log for the radio firmware, which is in C: the exports of the static library. A slice is a
//! pointer and then a length.

#![tactic(auto)]

ghost use Rattle.std.specs.Prelude.{◌≡◌};
ghost use Rattle.message_log.specs.Log.{clear_to, count_in};
ghost use Rattle.message_log.specs.Firmware.{clear_code, count_code};

// Numbers for the answers, and functions of these names beside those of `message_log`: the caller is
// in C, and a crate is a library or a static library.

/// Clears a log: 0, or the number of the refusal, with nothing touched.
#[unsafe(no_mangle)]
pub extern "C" fn kilqaros_log_clear(bytes: &mut [u8], capacity: u16) -> u8
    ensures answer { result ≡ clear_code (clear_to bytes.old capacity).answer }
    ensures bytes { bytes.new ≡ (clear_to bytes.old capacity).bytes }
{
    message_log::kilqaros_log_clear(bytes, capacity)
}

/// Counts the entries of a log; 65,535 where there is no log.
#[unsafe(no_mangle)]
pub extern "C" fn kilqaros_log_count(bytes: &[u8]) -> u16
    ensures { result ≡ count_code (count_in bytes.now) }
{
    message_log::kilqaros_log_count(bytes)
}

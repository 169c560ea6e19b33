//! Clearing a log.
ghost use Rattle.std.specs.Prelude.{◌≡◌, ◌&&◌, length, OnOk, ◌==◌};
ghost use Rattle.message_log.specs.Added.{Empty};
ghost use Rattle.message_log.specs.Layout.{legal_capacity, log_length};
ghost use Rattle.message_log.specs.Log.{clear_to, cleared};

use crate::fault::Fault;
use crate::header::{is_legal, rest_length};
use crate::layout::{CAPACITY, SIZES_LENGTH};
use crate::places::put;

/// Makes the bytes a log with this capacity and no entry. Where they have not the length of one,
/// or the capacity is not a legal one, nothing is touched.
#[tactic(auto, using(crate::proofs::Adding::empty_log))]
pub fn clear(bytes: &mut [u8], capacity: u16) -> Result<(), Fault>
    ensures answer { result ≡ (clear_to bytes.old capacity).answer }
    ensures bytes { bytes.new ≡ (clear_to bytes.old capacity).bytes }
    ensures emptied { OnOk result (Empty capacity bytes.new) }
{
    if !fits(bytes.len(), capacity) {
        return Err(Fault::IllFormedLog);
    }
    write_empty(bytes, capacity);
    Ok(())
}

// Whether this many bytes can be a log with this capacity.
fn fits(size: usize, capacity: u16) -> bool
    ensures { result ≡ (legal_capacity capacity && size == log_length capacity) }
{
    is_legal(capacity) && size == SIZES_LENGTH + rest_length(capacity)
}

// Writes the capacity, and zeros elsewhere.
fn write_empty(bytes: &mut [u8], capacity: u16)
    requires { length bytes.old ≡ log_length capacity }
    ensures { bytes.new ≡ cleared capacity }
{
    bytes.fill(0);
    put(bytes, CAPACITY, &capacity.to_be_bytes());
}

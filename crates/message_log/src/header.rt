//! The sizes that a log opens with.
ghost use Rattle.std.specs.Prelude.{◌≡◌, ◌+◌, ◌*◌, ◌≤◌, ◌&&◌};
ghost use Rattle.message_log.specs.Layout.{legal_capacity, count_of};
ghost use Rattle.message_log.specs.Log.{sizes_of, count_in};

use crate::fault::Fault;
use crate::layout::{BODY_LENGTH, MAX_CAPACITY};

/// How many entries a log has room for, and how many it has.
#[derive(Clone, Copy, PartialEq, Eq, Debug)]
pub struct Sizes {
    pub capacity: u16,
    pub count: u16,
}

impl Sizes {
    /// The sizes of a log, or the fault of bytes that are none.
    // No `TryFrom`: bytes that are lent mutably would have to be written `&*bytes`.
    pub fn of(bytes: &[u8]) -> Result<Sizes, Fault>
        ensures { result ≡ sizes_of bytes.now }
    {
        let [c1, c0, m1, m0, rest @ ..] = bytes else {
            return Err(Fault::IllFormedLog);
        };
        let capacity = u16::from_be_bytes([*c1, *c0]);
        let count = u16::from_be_bytes([*m1, *m0]);
        if is_legal(capacity) && rest.len() == rest_length(capacity) && count <= capacity {
            Ok(Sizes { capacity, count })
        } else {
            Err(Fault::IllFormedLog)
        }
    }
}

/// How many entries a log has, or the fault of bytes that are none.
pub fn count(bytes: &[u8]) -> Result<u16, Fault>
    ensures { result ≡ count_in bytes.now }
{
    let sizes = Sizes::of(bytes)?;
    Ok(sizes.count)
}

// A log may have this capacity.
pub(crate) fn is_legal(capacity: u16) -> bool
    ensures { result ≡ legal_capacity capacity }
{
    0 < capacity && capacity <= MAX_CAPACITY
}

// The length of the kinds and bodies of a log with this capacity.
pub(crate) fn rest_length(capacity: u16) -> usize
    ensures { result ≡ 27 * capacity }
{
    (1 + BODY_LENGTH) * usize::from(capacity)
}

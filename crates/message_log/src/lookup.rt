//! Looking up an entry of a log.
ghost use Rattle.std.specs.Prelude.{◌≡◌};
ghost use Rattle.message_log.specs.Log.{look_up_in, shown};

use crate::fault::Fault;
use crate::log::Log;

/// The kind byte and the 26 body bytes of an entry, not yet read.
#[derive(Clone, Copy, PartialEq, Eq)]
pub struct StoredEntry<'a> {
    // A byte, and no `Kind`: what lies in a log may be the number of none.
    pub kind: u8,
    pub body: &'a [u8],
}

/// Entry `entry` of a log: none where the log has no such entry, or the fault of bytes that are
/// no log.
pub fn look_up(bytes: &[u8], entry: u16) -> Result<Option<StoredEntry<'_>>, Fault>
    ensures { shown result ≡ look_up_in bytes.now entry }
{
    let log = Log::open(bytes)?;
    if entry < log.sizes.count {
        Ok(Some(log.entry(entry)))
    } else {
        Ok(None)
    }
}

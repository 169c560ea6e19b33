//! Bytes that are a log, and what they hold.
ghost use Rattle.std.specs.Prelude.{◌≡◌, ◌<◌, Ok, Err, MatchResult};
ghost use Rattle.protocol.specs.Positions.{position};
ghost use Rattle.message_log.specs.Layout.{count_of};
ghost use Rattle.message_log.specs.Log.{sizes_of, stored_at, entries, same_stored, shows, append_entry};

use crate::fault::Fault;
use crate::header::Sizes;
use crate::layout::{BODY_LENGTH, body_place, kind_place};
use crate::lookup::StoredEntry;

// Bytes that are a log, with its sizes.
#[derive(Clone, Copy)]
pub(crate) struct Log<'a> {
    bytes: &'a [u8],
    pub(crate) sizes: Sizes,
    ghost is_log: { sizes_of bytes.now ≡ Ok sizes },
}

impl<'a> Log<'a> {
    // The log that the bytes are, or the fault of bytes that are none. A function of its own, since
    // `Log::try_from` would not take the `&mut [u8]` of `append` as it is.
    pub(crate) fn open(bytes: &'a [u8]) -> Result<Log<'a>, Fault>
        ensures { MatchResult result (λ log. log.bytes.now ≡ bytes.now) (λ fault. sizes_of bytes.now ≡ Err fault) }
    {
        let sizes = Sizes::of(bytes)?;
        Ok(Log { bytes, sizes })
    }

    // The entry of this number.
    pub(crate) fn entry(&self, number: u16) -> StoredEntry<'a>
        requires { number < self.now.sizes.count }
        ensures { shows result ≡ stored_at self.now.bytes.now number }
    {
        let at = body_place(self.sizes.capacity, number);
        StoredEntry {
            kind: self.bytes[kind_place(number)],
            body: &self.bytes[at..at + BODY_LENGTH],
        }
    }

    // The lowest entry that is equal to this one, if any.
    fn find(&self, entry: &StoredEntry<'_>) -> Option<u16>
        ensures { result ≡ position (same_stored (shows entry.now)) (entries self.now.bytes.now) }
    {
        (0..self.sizes.count).find(|&number| *entry == self.entry(number))
    }

    // The place of an entry: that of an equal one, or else the next, if there is room.
    pub(crate) fn place(&self, entry: &StoredEntry<'_>) -> Result<u16, Fault>
        ensures { result ≡ (append_entry self.now.bytes.now (shows entry.now)).answer }
    {
        let Sizes { capacity, count } = self.sizes;
        match self.find(entry) {
            Some(number) => Ok(number),
            None if count < capacity => Ok(count),
            None => Err(Fault::LogFull),
        }
    }
}

//! Adding a message to a log.
ghost use Rattle.std.specs.Prelude.{◌≡◌, ◌<◌, length, Ok, IfOk};
ghost use Rattle.message_log.specs.Added.{Holds};
ghost use Rattle.message_log.specs.Rules.{Fits, body_of};
ghost use Rattle.message_log.specs.Log.{sizes_of, shows, added, append_to, appended, stored_as};

use crate::encoding::encode;
use crate::fault::Fault;
use crate::header::Sizes;
use crate::layout::{COUNT, body_place, kind_place};
use crate::log::Log;
use crate::lookup::StoredEntry;
use crate::places::put;
use protocol::Message;

/// Adds a message to a log, and answers its entry. A message that the log has already is not
/// added again: the answer is the lowest entry that is equal to it.
pub fn append(bytes: &mut [u8], message: &Message) -> Result<u16, Fault>
    ensures answer { result ≡ (append_to bytes.old (stored_as message.now)).answer }
    ensures bytes { bytes.new ≡ (append_to bytes.old (stored_as message.now)).bytes }
    ensures holds { IfOk result (λ number. Holds bytes.old bytes.new (stored_as message.now) number) }
{
    let body = encode(message);
    let entry = stored(message, &body);
    let log = Log::open(bytes)?;
    let sizes = log.sizes;
    let place = log.place(&entry)?;
    // The place of a new entry is the count.
    if place == sizes.count {
        write(bytes, sizes, &entry);
    }
    Ok(place)
}

/// The entry at which a log has a message, or would have it if it were added; or the fault of
/// bytes that are no log, or of a full log. Nothing is written.
#[tactic(auto, unfolding(crate::specs::Log::appended))]
pub fn place(bytes: &[u8], message: &Message) -> Result<u16, Fault>
    ensures answer { result ≡ (appended bytes.now message.now).answer }
    ensures fits { Fits message.now }
{
    let body = encode(message);
    let log = Log::open(bytes)?;
    log.place(&stored(message, &body))
}

// What a message with this body is stored as.
fn stored<'a>(message: &Message, body: &'a [u8; 26]) -> StoredEntry<'a>
    requires { body.now ≡ body_of message.now }
    ensures { shows result ≡ stored_as message.now }
{
    StoredEntry {
        kind: message.kind().into(),
        body,
    }
}

// Writes a new entry at the count of a log with these sizes, and raises the count.
fn write(bytes: &mut [u8], sizes: Sizes, entry: &StoredEntry<'_>)
    requires log { sizes_of bytes.old ≡ Ok sizes }
    requires room { sizes.count < sizes.capacity }
    requires whole { length entry.now.body.now ≡ 26 }
    ensures { bytes.new ≡ added bytes.old (shows entry.now) }
{
    let Sizes { capacity, count } = sizes;
    put(bytes, body_place(capacity, count), entry.body);
    bytes[kind_place(count)] = entry.kind;
    put(bytes, COUNT, &(count + 1).to_be_bytes());
}

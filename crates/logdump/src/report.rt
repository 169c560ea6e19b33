//! A log in words.
ghost use Rattle.std.specs.Prelude.{◌≡◌};
ghost use Rattle.message_log.specs.Log.{message_at};

use message_log::{Entry, Sizes, look_up};
use protocol::{Message, Refusal};
use std::io;

// The sizes of a log and a line for each entry; or the refusal of bytes that are no log.
pub fn print_log(rt: &HostRuntime, bytes: &[u8], nodes: u8) -> io::Result<()> {
    let Sizes { count, capacity } = match Sizes::of(bytes) {
        Ok(sizes) => sizes,
        Err(fault) => return println!(rt; "no {fault}"),
    };
    println!(rt; "log {count} of {capacity}")?;
    for number in 0..count {
        print_entry(rt, number, entry_message(bytes, number, nodes))?;
    }
    Ok(())
}

fn print_entry(rt: &HostRuntime, number: u16, read: Result<Message, Refusal>) -> io::Result<()> {
    match read {
        Ok(message) => println!(rt; "{number}: {message}"),
        Err(refusal) => println!(rt; "{number}: no {refusal}"),
    }
}

// The message in an entry, or why it cannot be read. A member's delivery begins with the same three
// calls: one function for both would be one more public function of the log, for two callers.
fn entry_message(bytes: &[u8], number: u16, nodes: u8) -> Result<Message, Refusal>
    ensures { result ≡ message_at nodes bytes.now number }
{
    let Some(stored) = look_up(bytes, number)? else {
        return Err(Refusal::NoSuchEntry);
    };
    let entry = Entry::read(stored.kind, stored.body, nodes)?;
    Ok(entry.message())
}

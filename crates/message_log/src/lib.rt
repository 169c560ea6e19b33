//! The message log: its bytes, its entries, and how messages are written into it and read again.

#![tactic(auto)]

mod appending;
mod c_api;
mod clearing;
mod encoding;
mod entry;
mod fault;
mod fields;
mod header;
mod layout;
mod log;
mod lookup;
mod places;

pub use appending::{append, place};
pub use c_api::{kilqaros_log_clear, kilqaros_log_count};
pub use clearing::clear;
pub use encoding::encode;
pub use entry::Entry;
pub use fault::Fault;
pub use fields::Fields;
pub use header::{Sizes, count};
pub use layout::{BODY_LENGTH, MAX_CAPACITY};
pub use lookup::{StoredEntry, look_up};

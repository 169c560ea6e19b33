//! What a node keeps over restarts and power cuts, and stores of any make behind one interface.

#![tactic(auto)]

mod bank;
mod pair;
mod parts;
mod plain;
mod power;
mod ring;
mod ring_bytes;
mod single;
mod slot;
mod store;
mod theorems;

pub use bank::Bank;
pub use pair::Pair;
pub use plain::PlainStore;
pub use power::Power;
pub use ring::RingStore;
pub use single::Single;
pub use store::Store;
pub use theorems::{never_torn, worked_cuts};

//! What a node decides, as functions on values. Nothing is written here: a log is only read.

#![tactic(auto)]

mod calls;
mod delivery;
mod entry;
mod member;
mod restart;
mod setup;
#[cfg(test)]
mod tests;

pub use member::Member;
pub use restart::restarted;
pub use setup::Setup;

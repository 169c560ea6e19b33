//! Someone else's store and someone else's bank, proved against the same traits, and tests of ours.

#![tactic(auto)]

mod fickle;
mod generic;
mod pinned;
mod vec_bank;

pub use fickle::FickleStore;
pub use generic::write_and_read;
pub use pinned::{cut_on_the_right, cut_plain, cut_ring};
pub use vec_bank::VecBank;

#[cfg(test)]
mod tests;

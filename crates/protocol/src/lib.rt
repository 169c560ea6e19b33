//! The types that every layer of the protocol shares.

#![tactic(auto)]

mod change;
mod effect;
mod kind;
mod message;
mod node_state;
mod record;
mod refusal;
mod theorems;
mod volatile;

pub use change::{Accepted, Change};
pub use effect::Effect;
pub use kind::{Kind, UnknownKind};
pub use message::{Commit, EVERYONE, Join, Message, Publication, Response, Term, Value, Version};
pub use node_state::NodeState;
pub use record::Record;
pub use refusal::Refusal;
pub use theorems::{
    descendant_is_descent, messages_are_legal, no_run_splits_the_history, steps_are_the_models,
    worked_run,
};
pub use volatile::Volatile;

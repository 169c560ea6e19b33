//! A cluster of nodes over a bank of stores, with a log of messages.

#![tactic(auto)]

mod call;
mod calls;
mod carrying;
mod cluster;
mod nodes;
mod not_run;
mod opening;
mod running;
mod steps;
mod theorems;
mod turn;

pub use call::Call;
pub use carrying::Answer;
pub use cluster::Cluster;
pub use node::Setup;
pub use not_run::NotRun;
pub use running::run;
pub use theorems::{
    bytes_are_messages, no_run_splits_the_log, steps_over_bytes_are_the_models, worked_cases,
};
pub use turn::Turn;

//! What is fixed when a cluster is opened.
use protocol::Value;
use quorum::NodeSet;

/// What is fixed when a cluster is opened: the voting rule, and what its nodes start from.
#[derive(Drop)]
pub struct Setup<R> {
    pub rule: R,
    pub initial_configuration: NodeSet,
    pub initial_value: Value,
}

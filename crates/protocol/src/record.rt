//! What a node must not forget.
use crate::message::{Term, Value, Version};
use quorum::NodeSet;

/// The numbers that a node keeps in its store, over restarts and power cuts.
#[derive(Clone, Copy, Default, PartialEq, Eq, Debug)]
pub struct Record<V = Value> {
    pub current_term: Term,
    pub last_accepted_term: Term,
    pub last_accepted_version: Version,
    pub last_accepted_value: V,
    pub last_accepted_configuration: NodeSet,
    pub last_committed_configuration: NodeSet,
}

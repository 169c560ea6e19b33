//! A node.
use crate::message::Value;
use crate::record::Record;
use crate::volatile::Volatile;

/// What a node keeps in its store, and what it forgets at a restart.
#[derive(Clone, Copy, PartialEq, Eq, Debug)]
pub struct NodeState<V = Value> {
    pub kept: Record<V>,
    pub volatile: Volatile,
}

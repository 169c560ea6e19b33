//! A cluster: its nodes, and what is fixed when it is opened.
use crate::nodes::Nodes;
use node::Setup;

/// A cluster of at most 16 nodes. Node `n` keeps its record in store `n` of the bank.
#[derive(Drop)]
pub struct Cluster<B, R> {
    // Before the setup, so that the bank is dropped first.
    pub(crate) nodes: Nodes<B>,
    pub(crate) setup: Setup<R>,
}

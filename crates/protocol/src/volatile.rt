//! What a node forgets at a restart.
use crate::message::Version;
use quorum::NodeSet;

/// The values that a node keeps in memory only.
#[derive(Clone, Copy, Default, PartialEq, Eq, Debug)]
pub struct Volatile {
    /// The nodes whose joins were counted in this term.
    pub join_votes: NodeSet,
    /// Whether the node has started a join since it was last restarted.
    pub started_join: bool,
    /// Whether the node has won the election of this term.
    pub election_won: bool,
    pub last_published_version: Version,
    pub last_published_configuration: NodeSet,
    /// The nodes whose responses to the last publication were counted.
    pub publish_votes: NodeSet,
}

//! What a node writes to its store.
ghost use Rattle.std.specs.Prelude.{◌≡◌};
ghost use Rattle.protocol.specs.Changes.{changed};

use crate::message::{Term, Value, Version};
use crate::record::Record;
use quorum::NodeSet;

/// The numbers that a node replaces when it accepts a publication.
#[derive(Clone, Copy, PartialEq, Eq, Debug)]
pub struct Accepted<V = Value> {
    pub term: Term,
    pub version: Version,
    pub value: V,
    pub configuration: NodeSet,
    pub committed_configuration: NodeSet,
}

/// A change of a record.
#[derive(Clone, Copy, PartialEq, Eq, Debug)]
pub enum Change<V = Value> {
    /// The current term is replaced.
    Term(Term),
    /// The five other numbers are replaced.
    Accept(Accepted<V>),
    /// The accepted configuration becomes the committed one.
    Mark,
}

impl<V: Drop> Change<V> {
    /// The record after the change.
    pub fn apply(self, old: Record<V>) -> Record<V>
        ensures { result ≡ changed self old }
    {
        match self {
            Change::Term(term) => Record {
                current_term: term,
                ..old
            },
            Change::Accept(accepted) => Record {
                current_term: old.current_term,
                last_accepted_term: accepted.term,
                last_accepted_version: accepted.version,
                last_accepted_value: accepted.value,
                last_accepted_configuration: accepted.configuration,
                last_committed_configuration: accepted.committed_configuration,
            },
            Change::Mark => Record {
                last_committed_configuration: old.last_accepted_configuration,
                ..old
            },
        }
    }
}

//! The five calls, with their numbers.
use protocol::{Term, Value, Version};
use quorum::NodeSet;
use store::Power;

/// A call on a cluster. Those that may write to a store carry the power that the write has.
// A publish's four numbers stay apart, as the definitions have them: each function would only take a
// struct of them apart.
#[derive(Clone, Copy, PartialEq, Eq, Debug)]
pub enum Call {
    /// The node accepts the initial value and the initial configuration.
    Bootstrap {
        node: u8,
        power: Power,
    },
    /// The node votes for `leader` in a new term.
    StartJoin {
        node: u8,
        leader: u8,
        term: Term,
        power: Power,
    },
    /// The node, if it leads, proposes a value and a configuration.
    Publish {
        node: u8,
        term: Term,
        version: Version,
        value: Value,
        configuration: NodeSet,
    },
    /// The node is handed an entry of the log.
    Deliver {
        entry: u16,
        node: u8,
        power: Power,
    },
    /// The node loses what it does not keep in its store.
    Restart {
        node: u8,
    },
}

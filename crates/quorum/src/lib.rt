//! Sets of nodes and the rules by which votes make a quorum.

#![tactic(auto)]

mod majority;
mod node_set;
mod rule;
#[cfg(test)]
mod tests;
mod weighted;
mod weights;
mod worked_cases;

pub use majority::Majority;
pub use node_set::{MAX_NODES, NodeSet};
pub use rule::VotingRule;
pub use weighted::Weighted;
pub use weights::Weights;
pub use worked_cases::{heavy_node_decides, rules_are_as_defined};

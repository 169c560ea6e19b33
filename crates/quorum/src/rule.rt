//! What a voting rule is.
ghost use Rattle.std.specs.Prelude.{◌≡◌, Bool};
ghost use Rattle.quorum.specs.declared.node_set.NodeSet.{NodeSet};
ghost use Rattle.quorum.specs.Laws.{Shared, Grows, Whole, Void};

use crate::node_set::NodeSet;

/// A rule says which votes are a quorum of a configuration. Its answer depends on the two sets
/// and on its own meaning, which nothing changes.
pub trait VotingRule {
    ghost quorum: { Self → NodeSet → NodeSet → Bool };

    /// Whether the votes are a quorum of the configuration.
    fn is_quorum(&self, votes: NodeSet, configuration: NodeSet) -> bool
        ensures { result ≡ quorum self.now votes configuration };

    ghost shared: { (rule : Self) → Shared (quorum rule) };

    ghost grows: { (rule : Self) → Grows (quorum rule) };

    ghost whole: { (rule : Self) → Whole (quorum rule) };

    ghost void: { (rule : Self) → Void (quorum rule) };
}

//! Rules that compare weights.
ghost use Rattle.std.specs.Prelude.{◌≡◌, ℕ, ◌<◌, ◌≤◌};
ghost use Rattle.quorum.specs.Rules.{weight_of, outweighs};
ghost use Rattle.quorum.specs.Measure;

use crate::node_set::NodeSet;
use crate::rule::VotingRule;

/// A rule by which each node has a weight.
pub trait Weights {
    /// What each node weighs.
    ghost weight: { Self → ℕ → ℕ };

    /// The weight of a set: 16 nodes of 15 at most.
    fn weigh(&self, set: NodeSet) -> u16
        ensures value { result ≡ weight_of (weight self.now) set }
        ensures bound { result ≤ 240 };

    /// No node weighs nothing.
    ghost positive: { (rule : Self) (n : ℕ) → 0 < weight rule n };
}

/// Twice the weight of the votes inside the configuration exceeds its weight.
impl<W: Weights> VotingRule for W {
    ghost quorum = { λ rule. outweighs (W.weight rule) };

    ghost shared = { λ rule. Measure.shared (W.weight rule) };

    ghost grows = { λ rule. Measure.grows (W.weight rule) };

    ghost whole = { λ rule. Measure.whole (W.weight rule) (W.positive rule) };

    ghost void = { λ rule. Measure.void (W.weight rule) };

    fn is_quorum(&self, votes: NodeSet, configuration: NodeSet) -> bool {
        2 * self.weigh(votes.intersection(configuration)) > self.weigh(configuration)
    }
}

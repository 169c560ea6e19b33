//! The majority rule.
ghost use Rattle.quorum.specs.Rules.{one_each};
ghost use Rattle.quorum.specs.Measure;

use crate::node_set::NodeSet;
use crate::weights::Weights;

/// Every node weighs one: twice the votes inside the configuration exceed its size.
#[derive(Clone, Copy, Debug)]
pub struct Majority;

impl Weights for Majority {
    ghost weight = { λ _. one_each };

    ghost positive = { λ _. Measure.one_each_positive };

    #[tactic(auto, using(crate::specs::WeightsLemmas::counted, crate::specs::WeightsLemmas::counted_at_most))]
    fn weigh(&self, set: NodeSet) -> u16 {
        set.bits().count_ones() as u16
    }
}

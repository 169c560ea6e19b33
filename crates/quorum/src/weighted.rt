//! The weighted rule.
ghost use Rattle.std.specs.Prelude.{◌≡◌};
ghost use Rattle.quorum.specs.Rules.{by_table, taken_as};
ghost use Rattle.quorum.specs.Measure;

use crate::node_set::{MAX_NODES, NodeSet};
use crate::weights::Weights;

/// The lowest weight of a node.
const MIN_WEIGHT: u8 = 1;

/// The highest weight of a node.
const MAX_WEIGHT: u8 = 15;

/// Node `n` weighs `weights[n]`, where 0 is taken as 1 and more than 15 as 15.
#[derive(Clone, Copy, Debug)]
pub struct Weighted {
    weights: [u8; 16],
}

impl Weighted {
    /// The rule with these weights.
    pub fn new(weights: [u8; 16]) -> Weighted
        ensures { result.weights ≡ weights }
    {
        Weighted { weights }
    }
}

impl Weights for Weighted {
    ghost weight = { λ rule. by_table rule.weights };

    ghost positive = { λ rule. Measure.by_table_positive rule.weights };

    fn weigh(&self, set: NodeSet) -> u16 {
        let mut total = 0;
        for (node, &weight) in (0..MAX_NODES).zip(&self.weights) {
            if set.contains(node) {
                total += u16::from(taken_as(weight));
            }
        }
        total
    }
}

// The weight that a number stands for.
fn taken_as(weight: u8) -> u8
    ensures { result ≡ taken_as weight }
{
    weight.clamp(MIN_WEIGHT, MAX_WEIGHT)
}

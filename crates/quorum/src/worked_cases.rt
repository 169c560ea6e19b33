//! Worked cases of the rules, and that the rules are those of the definitions, as theorems.
ghost use Rattle.std.specs.Prelude.{◌≡◌};
ghost use Rattle.quorum.specs.Rules.{majority, weighted};
ghost use Rattle.quorum.specs.WorkedCases.{HeavyNodeDecides};

use crate::majority::Majority;
use crate::rule::VotingRule;
use crate::weighted::Weighted;

/// With weights 3, 1 and 1, node 0 by itself is a quorum of the three nodes, and nodes 1 and 2
/// together are none.
#[tactic(auto, unfolding(crate::specs::Sets::member, crate::specs::Rules::weight_below))]
pub fn heavy_node_decides()
    ensures { HeavyNodeDecides }
{}

/// `Majority` answers by `majority`, and `Weighted` by `weighted` of its table, of which the worked
/// cases here and of the protocol speak.
pub fn rules_are_as_defined()
    ensures majority { (rule : Majority) → ⟦<Majority as VotingRule>⟧.quorum rule ≡ majority }
    ensures weighted { (rule : Weighted) → ⟦<Weighted as VotingRule>⟧.quorum rule ≡ weighted rule.weights }
{}

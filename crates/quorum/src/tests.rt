//! Sets and rules at their edges.
use crate::{Majority, NodeSet, VotingRule, Weighted};

#[test]
fn nodes_are_the_numbers_below_16(rt: HostRuntime) {
    let ends = NodeSet::empty().with(0).with(15).with(16).with(255);
    assert_eq!(rt; ends.bits(), 0x8001);
    assert!(rt; ends.contains(0) && ends.contains(15));
    assert!(rt; !ends.contains(1) && !ends.contains(16) && !ends.contains(255));
}

#[test]
fn a_configuration_has_known_nodes_only(rt: HostRuntime) {
    let all = NodeSet::from_bits(0xffff);
    let first = NodeSet::from_bits(1);
    assert!(rt; !first.is_configuration(0) && first.is_configuration(1));
    assert!(rt; !all.is_configuration(15) && all.is_configuration(16) && all.is_configuration(255));
    assert!(rt; !NodeSet::empty().is_configuration(0) && !NodeSet::empty().is_configuration(255));
}

#[test]
fn the_default_is_the_empty_set(rt: HostRuntime) {
    assert_eq!(rt; NodeSet::default(), NodeSet::empty());
}

#[test]
fn a_majority_is_more_than_half(rt: HostRuntime) {
    let rule = Majority;
    // A configuration, and the fewest of its nodes that are a majority; half of their bits is one node fewer.
    for (nodes, least) in [(0x1, 0x1), (0x3, 0x3), (0x7, 0x3), (0xf, 0x7)] {
        let configuration = NodeSet::from_bits(nodes);
        let votes = NodeSet::from_bits(least);
        assert!(rt; rule.is_quorum(votes, configuration));
        assert!(rt; !rule.is_quorum(NodeSet::from_bits(least / 2), configuration));
    }
    // Votes from outside count for nothing.
    assert!(rt; !rule.is_quorum(NodeSet::from_bits(0xfff1), NodeSet::from_bits(0x7)));
}

#[test]
fn weights_are_from_1_to_15(rt: HostRuntime) {
    let heavy = Weighted::new([3, 1, 1, 0, 0, 0, 0, 0, 0, 0, 0, 0, 0, 0, 16, 255]);
    let three = NodeSet::from_bits(0x7);
    assert!(rt; heavy.is_quorum(NodeSet::from_bits(0x1), three));
    assert!(rt; !heavy.is_quorum(NodeSet::from_bits(0x6), three));
    // 0 is taken as 1: two nodes of four are a tie, and three are more.
    assert!(rt; !heavy.is_quorum(NodeSet::from_bits(0x30), NodeSet::from_bits(0xf0)));
    assert!(rt; heavy.is_quorum(NodeSet::from_bits(0x70), NodeSet::from_bits(0xf0)));
    // 16 is taken as 15: a tie with nodes of weight 15 together, and more than nodes of 14.
    assert!(rt; !heavy.is_quorum(NodeSet::from_bits(0x4000), NodeSet::from_bits(0x7ff7)));
    assert!(rt; heavy.is_quorum(NodeSet::from_bits(0x4000), NodeSet::from_bits(0x7fe7)));
    // So is 255.
    assert!(rt; !heavy.is_quorum(NodeSet::from_bits(0x8000), NodeSet::from_bits(0xc000)));
}

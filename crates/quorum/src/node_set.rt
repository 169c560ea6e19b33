//! A set of nodes, one bit for each.
ghost use Rattle.std.specs.Prelude.{◌≡◌, ℕ, ◌/◌, ◌^◌, ◌&&◌, ◌||◌, Decides, ◌==◌, nat_lt};
ghost use Rattle.quorum.specs.Sets.{member, nobody, with_node, common, legal_configuration, Configuration};

use std::fmt;

/// A cluster has at most this many nodes.
pub const MAX_NODES: u8 = 16;

/// A set of nodes: bit `n` of `bits` says whether node `n` is in it.
#[derive(Clone, Copy, Default, PartialEq, Eq, Debug)]
pub struct NodeSet {
    bits: u16,
}

impl NodeSet {
    /// The set without nodes.
    pub fn empty() -> NodeSet
        ensures { result ≡ nobody }
    {
        NodeSet { bits: 0 }
    }

    /// The set whose bits these are.
    // Named as the library's `f32::from_bits`: `NodeSet::from(7)` would not say what the 7 is.
    pub fn from_bits(bits: u16) -> NodeSet
        ensures { result.bits ≡ bits }
    {
        NodeSet { bits }
    }

    /// The set's bits, as stores and messages carry them.
    // Named as the library's `f32::to_bits`, and beside `from_bits`.
    pub fn bits(self) -> u16
        ensures { result ≡ self.bits }
    {
        self.bits
    }

    /// Whether the node is in the set.
    #[tactic(auto, unfolding(crate::specs::Sets::member))]
    pub fn contains(self, node: u8) -> bool
        ensures { result ≡ member node self }
    {
        self.from_node(node) % 2 == 1
    }

    /// The set with the node in it; a number that is no node's changes nothing.
    pub fn with(self, node: u8) -> NodeSet
        ensures value { result ≡ with_node node self }
        ensures members { (k : ℕ) → member k result ≡ (member k self || (k == node && nat_lt node 16)) }
    {
        if is_node(node) {
            NodeSet {
                bits: self.bits | (1 << node),
            }
        } else {
            self
        }
    }

    /// The nodes that are in both sets.
    #[tactic(auto, using(crate::specs::MembersLemmas::common_members))]
    pub fn intersection(self, other: NodeSet) -> NodeSet
        ensures value { result ≡ common self other }
        ensures members { (k : ℕ) → member k result ≡ (member k self && member k other) }
    {
        NodeSet {
            bits: self.bits & other.bits,
        }
    }

    /// Whether the set is a legal configuration of a cluster of `nodes` nodes: not empty, and
    /// with no other node.
    pub fn is_configuration(self, nodes: u8) -> bool
        ensures test { result ≡ legal_configuration nodes self }
        ensures meaning { Decides result (Configuration nodes self) }
    {
        !self.is_empty() && self.from_node(nodes) == 0
    }

    // Whether the set has no node.
    fn is_empty(self) -> bool
        ensures { result ≡ (self.bits == 0) }
    {
        self == NodeSet::empty()
    }

    // The bits of `node` and of the nodes above it, moved down to bit 0.
    fn from_node(self, node: u8) -> u16
        ensures { result ≡ self.bits / 2 ^ node }
    {
        if is_node(node) { self.bits >> node } else { 0 }
    }
}

/// The nodes in ascending order, with commas between them; `-` for the empty set.
impl fmt::Display for NodeSet {
    fn fmt<W: fmt::Write>(&self, f: &mut fmt::Formatter<W>) -> fmt::Result {
        if self.is_empty() {
            return f.write_str("-");
        }
        let nodes = (0..MAX_NODES).filter(|&node| self.contains(node));
        for (place, node) in nodes.enumerate() {
            if place > 0 {
                f.write_str(",")?;
            }
            write!(f, "{node}")?;
        }
        Ok(())
    }
}

// Whether the number is a node's.
fn is_node(node: u8) -> bool
    ensures { result ≡ nat_lt node 16 }
{
    node < MAX_NODES
}

//! The nodes of a cluster, one by one.
ghost use Rattle.std.specs.Prelude.{◌≡◌, [], ◌∷◌, slice_set};
ghost use Rattle.protocol.specs.Decisions.{decided};
ghost use Rattle.cluster.specs.States.{node_at};
ghost use Rattle.cluster.specs.Calls.{count, shut_test, node_test, configuration_test};
ghost use Rattle.cluster.specs.Carrying.{Settled};
ghost use Rattle.cluster.specs.Clusters.{alone};

use node::restarted;
use protocol::{Effect, NodeState, Refusal, Volatile};
use quorum::{MAX_NODES, NodeSet};
use store::{Bank, Power};

/// The nodes of a cluster: node `n` has store `n` of the bank, and place `n` of the volatile values.
#[derive(Drop)]
pub struct Nodes<B> {
    pub(crate) bank: B,
    // An array with a place for each node: memory is fixed, since what this runs on has no heap.
    pub(crate) volatile: [Volatile; 16],
    // Why the opening was refused, if it was.
    pub(crate) shut: Option<Refusal>,
}

impl<B: Bank> Nodes<B> {
    // How many nodes there are.
    pub(crate) fn count(&self) -> u8
        ensures { result ≡ count (alone B.meaning self.now) }
    {
        self.bank.count().min(u32::from(MAX_NODES)) as u8
    }

    // The cluster is open.
    fn check_open(&self) -> Result<(), Refusal>
        ensures { result ≡ decided (shut_test (alone B.meaning self.now) ∷ []) tt }
    {
        match self.shut {
            Some(_) => Err(Refusal::ClusterShut),
            None => Ok(()),
        }
    }

    // The number is a node's.
    pub(crate) fn check_node(&self, node: u8) -> Result<(), Refusal>
        ensures { result ≡ decided (node_test (alone B.meaning self.now) node ∷ []) tt }
    {
        if node < self.count() {
            Ok(())
        } else {
            Err(Refusal::UnknownNode)
        }
    }

    // The configuration is legal.
    pub(crate) fn check_configuration(&self, configuration: NodeSet) -> Result<(), Refusal>
        ensures { result ≡ decided (configuration_test (alone B.meaning self.now) configuration ∷ []) tt }
    {
        if configuration.is_configuration(self.count()) {
            Ok(())
        } else {
            Err(Refusal::IllegalConfiguration)
        }
    }

    // A node as it is, if the cluster is open and has it. A store is read by `&mut`, so each function
    // that reads one says that nothing changes.
    pub(crate) fn find(&mut self, node: u8) -> Result<NodeState, Refusal>
        ensures same { alone B.meaning self.new ≡ alone B.meaning self.old }
        ensures value { result ≡ decided (shut_test (alone B.meaning self.old) ∷ node_test (alone B.meaning self.old) node ∷ []) (node_at (alone B.meaning self.old) node) }
    {
        self.check_open()?;
        self.check_node(node)?;
        Ok(self.read(node))
    }

    // The record in the store of this number, with the volatile values of this number; what is
    // not there reads as zeros.
    fn read(&mut self, node: u8) -> NodeState
        ensures same { alone B.meaning self.new ≡ alone B.meaning self.old }
        ensures value { result ≡ node_at (alone B.meaning self.old) node }
    {
        let kept = self.bank.read(u16::from(node)).unwrap_or_default();
        let volatile = self.volatile.get(usize::from(node)).copied();
        NodeState {
            kept,
            volatile: volatile.unwrap_or_default(),
        }
    }

    // A node makes the write of an effect, if one is due, and has its next volatile values. Where
    // the write is cut, the node is restarted from what its store kept.
    pub(crate) fn settle(&mut self, node: u8, effect: &Effect, power: Power) -> Result<(), Refusal>
        ensures { Settled (alone B.meaning self.old) node effect.now power result (alone B.meaning self.new) }
    {
        if let Some(change) = effect.change
            && self.bank.write(u16::from(node), change, power) != Some(true)
        {
            let kept = self.read(node).kept;
            put(&mut self.volatile, node, restarted(&kept));
            return Err(Refusal::WriteUnfinished);
        }
        put(&mut self.volatile, node, effect.volatile);
        Ok(())
    }
}

// Puts the volatile values of a node in their place, if there is one.
fn put(volatile: &mut [Volatile], node: u8, next: Volatile)
    ensures { volatile.new ≡ slice_set volatile.old node next }
{
    // By its index: `get_mut` was tried, and the proof did not close, since it then knows no element.
    let at = usize::from(node);
    if at < volatile.len() {
        volatile[at] = next;
    }
}

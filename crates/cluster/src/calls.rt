//! The five calls on a cluster.
ghost use Rattle.std.specs.Prelude.{◌≡◌, ℕ, ◌<◌, List, [], ◌∷◌, OnOk};
ghost use Rattle.cluster.specs.declared.call.Call.TheVariants.{Bootstrap as CallBootstrap, StartJoin as CallStartJoin, Publish as CallPublish, Deliver as CallDeliver, Restart as CallRestart};
ghost use Rattle.protocol.specs.Decisions.{decided};
ghost use Rattle.cluster.specs.States.{node_at};
ghost use Rattle.cluster.specs.Calls.{count, shut_test, node_test};
ghost use Rattle.cluster.specs.Clusters.{alone, Called};

use crate::carrying::Answer;
use crate::cluster::Cluster;
use protocol::{NodeState, Refusal, Term, Value, Version};
use quorum::{NodeSet, VotingRule};
use store::{Bank, Power};

impl<B: Bank, R: VotingRule> Cluster<B, R> {
    /// Why the opening was refused, if it was. Then each call answers `ClusterShut`.
    pub fn refusal(&self) -> Option<Refusal>
        ensures { result ≡ self.now.nodes.shut }
    {
        self.nodes.shut
    }

    /// A node as it is: the record in its store, and its volatile values. A cluster that is shut,
    /// or has no such node, refuses.
    pub fn node(&mut self, node: u8) -> Result<NodeState, Refusal>
        ensures setup { self.new.setup ≡ self.old.setup }
        ensures same { alone B.meaning self.new.nodes ≡ alone B.meaning self.old.nodes }
        ensures value { result ≡ decided (shut_test (alone B.meaning self.old.nodes) ∷ node_test (alone B.meaning self.old.nodes) node ∷ []) (node_at (alone B.meaning self.old.nodes) node) }
        ensures known { OnOk result (node < count (alone B.meaning self.old.nodes)) }
    {
        self.nodes.find(node)
    }

    /// The node accepts the initial value and the initial configuration, as accepted and as
    /// committed. It is lent no log: the contract holds beside every one.
    pub fn bootstrap(&mut self, node: u8, power: Power) -> Answer
        ensures { (log : List ℕ) → Called R.quorum B.meaning self.old log (CallBootstrap node power) result self.new log }
    {
        self.bootstrap_step(node, power)
    }

    /// The node moves to a higher term, and votes for `leader` in it.
    pub fn start_join(
        &mut self,
        node: u8,
        leader: u8,
        term: Term,
        power: Power,
        log: &mut [u8],
    ) -> Answer
        ensures { Called R.quorum B.meaning self.old log.old (CallStartJoin node leader term power) result self.new log.new }
    {
        self.start_join_step(node, leader, term, power, log)
    }

    /// The node, if it has won the election of its term, proposes a value and a configuration.
    pub fn publish(
        &mut self,
        node: u8,
        term: Term,
        version: Version,
        value: Value,
        configuration: NodeSet,
        log: &mut [u8],
    ) -> Answer
        ensures { Called R.quorum B.meaning self.old log.old (CallPublish node term version value configuration) result self.new log.new }
    {
        self.publish_step(node, term, version, value, configuration, log)
    }

    /// The node is handed an entry of the log.
    pub fn deliver(&mut self, entry: u16, node: u8, power: Power, log: &mut [u8]) -> Answer
        ensures { Called R.quorum B.meaning self.old log.old (CallDeliver entry node power) result self.new log.new }
    {
        self.deliver_step(entry, node, power, log)
    }

    /// The node loses what it does not keep in its store. It is lent no log: the contract holds
    /// beside every one.
    pub fn restart(&mut self, node: u8) -> Answer
        ensures { (log : List ℕ) → Called R.quorum B.meaning self.old log (CallRestart node) result self.new log }
    {
        self.restart_step(node)
    }
}

//! The five calls: what the node that is called decides, and carrying it out. Each step promises
//! that it is the definition's (`Stepped`), so that what follows from that, which the public call
//! adds, is proved once.
ghost use Rattle.std.specs.Prelude.{◌≡◌, [], ◌∷◌};
ghost use Rattle.protocol.specs.Decisions.{checked, decided, publish_tests, publish_effect};
ghost use Rattle.node.specs.Setups.{meant};
ghost use Rattle.cluster.specs.declared.call.Call.TheVariants.{Bootstrap as CallBootstrap, StartJoin as CallStartJoin, Publish as CallPublish, Deliver as CallDeliver, Restart as CallRestart};
ghost use Rattle.cluster.specs.Calls.{log_test, configuration_test};
ghost use Rattle.cluster.specs.Clusters.{with_log, Stepped};

use crate::carrying::Answer;
use crate::cluster::Cluster;
use message_log::Sizes;
use node::Member;
use protocol::{Effect, Refusal, Term, Value, Version};
use quorum::{NodeSet, VotingRule};
use store::{Bank, Power};

// A call that writes nothing needs no power.
const NO_POWER: Power = Power {
    budget: 0,
    residue: 0,
};

impl<B: Bank, R: VotingRule> Cluster<B, R> {
    // Bootstrap: the cluster is open and has the node, which is not bootstrapped yet.
    pub(crate) fn bootstrap_step(&mut self, node: u8, power: Power) -> Answer
        ensures { Stepped R.quorum B.meaning self.old [] (CallBootstrap node power) result self.new [] }
    {
        let state = self.nodes.find(node)?;
        let effect = self.setup.member(node, &state).bootstrap()?;
        self.nodes.settle_only(node, &effect, power)
    }

    // Start join: both nodes are known, and the bytes are a log.
    pub(crate) fn start_join_step(
        &mut self,
        node: u8,
        leader: u8,
        term: Term,
        power: Power,
        log: &mut [u8],
    ) -> Answer
        ensures { Stepped R.quorum B.meaning self.old log.old (CallStartJoin node leader term power) result self.new log.new }
    {
        let state = self.nodes.find(node)?;
        self.nodes.check_node(leader)?;
        Sizes::of(log)?;
        let effect = self.setup.member(node, &state).start_join(leader, term)?;
        self.nodes.carry_out(node, &effect, power, log)
    }

    // Publish: what the node decides is carried out. Nothing is written, so it needs no power.
    pub(crate) fn publish_step(
        &mut self,
        node: u8,
        term: Term,
        version: Version,
        value: Value,
        configuration: NodeSet,
        log: &mut [u8],
    ) -> Answer
        ensures { Stepped R.quorum B.meaning self.old log.old (CallPublish node term version value configuration) result self.new log.new }
    {
        let state = self.nodes.find(node)?;
        let member = self.setup.member(node, &state);
        let effect = self.decide_publish(&member, term, version, value, configuration, log)?;
        self.nodes.carry_out(node, &effect, NO_POWER, log)
    }

    // What the node decides on a publish: the bytes are a log, and the configuration is legal. A
    // function of its own, since all ten tests at once are too much for the search.
    fn decide_publish(
        &self,
        member: &Member<'_, R>,
        term: Term,
        version: Version,
        value: Value,
        configuration: NodeSet,
        log: &[u8],
    ) -> Result<Effect, Refusal>
        ensures { result ≡ checked (log_test (with_log B.meaning self.now.nodes log.now) ∷ configuration_test (with_log B.meaning self.now.nodes log.now) configuration ∷ []) (decided (publish_tests (meant R.quorum member.now.setup.now) member.now.state.now term version configuration) (publish_effect (meant R.quorum member.now.setup.now) member.now.state.now member.now.number term version value configuration)) }
    {
        Sizes::of(log)?;
        self.nodes.check_configuration(configuration)?;
        member.publish(term, version, value, configuration)
    }

    // Deliver: the node reads the entry, decides on it, and that is carried out.
    pub(crate) fn deliver_step(
        &mut self,
        entry: u16,
        node: u8,
        power: Power,
        log: &mut [u8],
    ) -> Answer
        ensures { Stepped R.quorum B.meaning self.old log.old (CallDeliver entry node power) result self.new log.new }
    {
        let state = self.nodes.find(node)?;
        let nodes = self.nodes.count();
        let effect = self
            .setup
            .member(node, &state)
            .deliver_entry(nodes, log, entry)?;
        self.nodes.carry_out(node, &effect, power, log)
    }

    // Restart: the node has the volatile values that follow from its record.
    pub(crate) fn restart_step(&mut self, node: u8) -> Answer
        ensures { Stepped R.quorum B.meaning self.old [] (CallRestart node) result self.new [] }
    {
        let state = self.nodes.find(node)?;
        let effect = self.setup.member(node, &state).restart();
        self.nodes.settle_only(node, &effect, NO_POWER)
    }
}

//! Running a list of calls.
ghost use Rattle.std.specs.Prelude.{◌≡◌, ℕ, List, Ok, Err};
ghost use Rattle.message_log.specs.declared.fault.Fault.TheVariants.{IllFormedLog};
ghost use Rattle.message_log.specs.Log.{clear_to};
ghost use Rattle.node.specs.Setups.{meant};
ghost use Rattle.cluster.specs.Clusters.{with_log, Called};
ghost use Rattle.cluster.specs.Playing.{Played, GivenBack, Ran};

use crate::call::Call;
use crate::carrying::Answer;
use crate::cluster::Cluster;
use crate::not_run::NotRun;
use crate::turn::Turn;
use message_log::clear;
use node::Setup;
use protocol::Refusal;
use quorum::VotingRule;
use store::Bank;

impl<B: Bank, R: VotingRule> Cluster<B, R> {
    /// Carries out a call.
    pub fn call(&mut self, call: Call, log: &mut [u8]) -> Answer
        ensures { Called R.quorum B.meaning self.old log.old call result self.new log.new }
    {
        // A call is a value, since a run is a list of them: closures would be no plainer.
        match call {
            Call::Bootstrap { node, power } => self.bootstrap(node, power),
            Call::StartJoin {
                node,
                leader,
                term,
                power,
            } => self.start_join(node, leader, term, power, log),
            Call::Publish {
                node,
                term,
                version,
                value,
                configuration,
            } => self.publish(node, term, version, value, configuration, log),
            Call::Deliver { entry, node, power } => self.deliver(entry, node, power, log),
            Call::Restart { node } => self.restart(node),
        }
    }

    // Takes a turn: its call is carried out, and its answer written down.
    fn take(&mut self, turn: &mut Turn, log: &mut [u8])
        ensures call { turn.new.call ≡ turn.old.call }
        ensures called { Called R.quorum B.meaning self.old log.old turn.old.call turn.new.answer self.new log.new }
    {
        turn.answer = self.call(turn.call, log);
    }

    // Takes the turns, one after the other.
    fn play(&mut self, turns: &mut [Turn], log: &mut [u8])
        ensures setup { self.new.setup ≡ self.old.setup }
        ensures played { Played (meant R.quorum self.old.setup) (with_log B.meaning self.old.nodes log.old) turns.old turns.new (with_log B.meaning self.new.nodes log.new) }
    {
        for turn in turns.iter_mut() {
            self.take(turn, log);
        }
    }
}

/// Opens a cluster over a bank, clears a log to a capacity, and carries out a list of calls, each
/// with its own power. After each call there is one commit per version, and later commits descend
/// from earlier ones. Bytes that cannot be cleared to the capacity are refused first, and then
/// nothing is touched or opened.
pub fn run<B: Bank, R: VotingRule>(
    bank: B,
    setup: Setup<R>,
    capacity: u16,
    log: &mut [u8],
    turns: &mut [Turn],
) -> Result<Cluster<B, R>, NotRun<B, R>>
    ensures refused { (clear_to log.old capacity).answer ≡ Err IllFormedLog → GivenBack R.quorum B.meaning bank setup turns.old result log.old log.new turns.new }
    ensures ran { (clear_to log.old capacity).answer ≡ Ok tt → Ran R.quorum B.meaning bank setup turns.old capacity result log.new turns.new }
{
    if let Err(fault) = clear(log, capacity) {
        let refusal = Refusal::from(fault);
        return Err(NotRun {
            refusal,
            bank,
            setup,
        });
    }
    let mut cluster = Cluster::open(bank, setup);
    cluster.play(turns, log);
    Ok(cluster)
}

//! What a node decides when it is called upon: bootstrap, start join, publish.
ghost use Rattle.std.specs.Prelude.{◌≡◌};
ghost use Rattle.protocol.specs.Decisions.{decided, bootstrap_tests, bootstrap_effect, start_join_tests, start_join_effect, publish_tests, publish_effect};
ghost use Rattle.node.specs.Setups.{meant};

use crate::member::Member;
use crate::restart::restarted;
use protocol::{
    Accepted, Change, Effect, Join, Message, Publication, Refusal, Term, Value, Version, Volatile,
};
use quorum::{NodeSet, VotingRule};

impl<R: VotingRule> Member<'_, R> {
    /// The node accepts and commits the initial value and the initial configuration, once; its
    /// terms and its version stay.
    pub fn bootstrap(&self) -> Result<Effect, Refusal>
        ensures { result ≡ decided (bootstrap_tests (meant R.quorum self.now.setup.now) self.now.state.now) (bootstrap_effect (meant R.quorum self.now.setup.now) self.now.state.now) }
    {
        let kept = &self.state.kept;
        if kept.last_accepted_configuration != NodeSet::empty() {
            return Err(Refusal::AlreadyBootstrapped);
        }
        Ok(Effect {
            change: Some(Change::Accept(Accepted {
                term: kept.last_accepted_term,
                version: kept.last_accepted_version,
                value: self.setup.initial_value,
                configuration: self.setup.initial_configuration,
                committed_configuration: self.setup.initial_configuration,
            })),
            volatile: self.state.volatile,
            message: None,
        })
    }

    /// The node moves to a higher term and votes for `leader` in it: it forgets what a
    /// restart forgets, but has started a join.
    pub fn start_join(&self, leader: u8, term: Term) -> Result<Effect, Refusal>
        ensures { result ≡ decided (start_join_tests (meant R.quorum self.now.setup.now) self.now.state.now term) (start_join_effect (meant R.quorum self.now.setup.now) self.now.state.now self.now.number leader term) }
    {
        let kept = &self.state.kept;
        if term <= kept.current_term {
            return Err(Refusal::TermNotHigher);
        }
        Ok(Effect {
            change: Some(Change::Term(term)),
            volatile: Volatile {
                started_join: true,
                ..restarted(kept)
            },
            message: Some(Message::Join(Join {
                source: self.number,
                destination: leader,
                term,
                base_term: kept.last_accepted_term,
                base_version: kept.last_accepted_version,
            })),
        })
    }

    /// The node proposes a value and a configuration: only the leader of `term`, one
    /// publication at a time, and with a higher version than the last. It changes the
    /// configuration only once the last change is committed, and only to one of which its join
    /// votes are a quorum.
    pub fn publish(
        &self,
        term: Term,
        version: Version,
        value: Value,
        configuration: NodeSet,
    ) -> Result<Effect, Refusal>
        ensures { result ≡ decided (publish_tests (meant R.quorum self.now.setup.now) self.now.state.now term version configuration) (publish_effect (meant R.quorum self.now.setup.now) self.now.state.now self.now.number term version value configuration) }
    {
        let kept = &self.state.kept;
        let volatile = &self.state.volatile;
        if !volatile.election_won {
            return Err(Refusal::ElectionNotWon);
        }
        if volatile.last_published_version != kept.last_accepted_version {
            return Err(Refusal::PublicationUnderWay);
        }
        if term != kept.current_term {
            return Err(Refusal::OtherTerm);
        }
        if version <= volatile.last_published_version {
            return Err(Refusal::VersionNotHigher);
        }
        if configuration != kept.last_accepted_configuration
            && kept.last_committed_configuration != kept.last_accepted_configuration
        {
            return Err(Refusal::ReconfigurationUnderWay);
        }
        if !self
            .setup
            .rule
            .is_quorum(volatile.join_votes, configuration)
        {
            return Err(Refusal::NoJoinQuorum);
        }
        Ok(Effect {
            change: None,
            volatile: Volatile {
                last_published_version: version,
                last_published_configuration: configuration,
                publish_votes: NodeSet::empty(),
                ..*volatile
            },
            message: Some(Message::Publication(Publication {
                source: self.number,
                term,
                version,
                base_term: kept.last_accepted_term,
                base_version: kept.last_accepted_version,
                value,
                configuration,
                committed_configuration: kept.last_committed_configuration,
            })),
        })
    }
}

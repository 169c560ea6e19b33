//! What a node decides when a message is delivered to it.
ghost use Rattle.std.specs.Prelude.{◌≡◌};
ghost use Rattle.protocol.specs.Decisions.{decided, joiner_ahead, join_tests, elects, join_effect, publication_tests, publication_effect, response_tests, decides, response_effect, commit_tests, commit_effect, deliver_decided};
ghost use Rattle.node.specs.Setups.{meant};

use crate::member::Member;
use protocol::{
    Accepted, Change, Commit, Effect, Join, Message, Publication, Refusal, Response, Volatile,
};
use quorum::{NodeSet, VotingRule};

impl<R: VotingRule> Member<'_, R> {
    /// What the node does with a message that is for it.
    pub fn deliver(&self, message: &Message) -> Result<Effect, Refusal>
        ensures { result ≡ deliver_decided (meant R.quorum self.now.setup.now) self.now.state.now self.now.number message.now }
    {
        // A message is a value, read from a log: closures would be no plainer.
        match message {
            Message::Join(join) => self.count_join(join),
            Message::Publication(publication) => self.accept(publication),
            Message::Response(response) => self.count_response(response),
            Message::Commit(commit) => self.commit(commit),
        }
    }

    // A join: the vote of its source is counted.
    fn count_join(&self, join: &Join) -> Result<Effect, Refusal>
        ensures { result ≡ decided (join_tests (meant R.quorum self.now.setup.now) self.now.state.now join.now) (join_effect (meant R.quorum self.now.setup.now) self.now.state.now join.now) }
    {
        let kept = &self.state.kept;
        let volatile = &self.state.volatile;
        if join.term != kept.current_term {
            return Err(Refusal::OtherTerm);
        }
        if !volatile.started_join {
            return Err(Refusal::JoinNotStarted);
        }
        if self.is_joiner_ahead(join) {
            return Err(Refusal::JoinerAhead);
        }
        if kept.last_accepted_configuration == NodeSet::empty() {
            return Err(Refusal::NotBootstrapped);
        }
        let join_votes = volatile.join_votes.with(join.source);
        let election_won = self.elects(join_votes);
        // The first publication of a new leader follows on what it has accepted.
        let last_published_version = if election_won && !volatile.election_won {
            kept.last_accepted_version
        } else {
            volatile.last_published_version
        };
        Ok(Effect {
            change: None,
            volatile: Volatile {
                join_votes,
                election_won,
                last_published_version,
                ..*volatile
            },
            message: None,
        })
    }

    // Whether the joiner has accepted something newer than the node has.
    fn is_joiner_ahead(&self, join: &Join) -> bool
        ensures { result ≡ joiner_ahead (meant R.quorum self.now.setup.now) self.now.state.now join.now }
    {
        let kept = &self.state.kept;
        (join.base_term, join.base_version) > (kept.last_accepted_term, kept.last_accepted_version)
    }

    // Whether the votes win the election: in the accepted and in the committed configuration.
    fn elects(&self, join_votes: NodeSet) -> bool
        ensures { result ≡ elects (meant R.quorum self.now.setup.now) self.now.state.now join_votes }
    {
        let accepted = self.state.kept.last_accepted_configuration;
        let committed = self.state.kept.last_committed_configuration;
        self.setup.rule.is_quorum(join_votes, accepted)
            && self.setup.rule.is_quorum(join_votes, committed)
    }

    // A publication: the node accepts it, and tells its source so.
    fn accept(&self, publication: &Publication) -> Result<Effect, Refusal>
        ensures { result ≡ decided (publication_tests (meant R.quorum self.now.setup.now) self.now.state.now publication.now) (publication_effect (meant R.quorum self.now.setup.now) self.now.state.now self.now.number publication.now) }
    {
        let kept = &self.state.kept;
        if publication.term != kept.current_term {
            return Err(Refusal::OtherTerm);
        }
        if publication.term == kept.last_accepted_term
            && publication.version <= kept.last_accepted_version
        {
            return Err(Refusal::AlreadyAccepted);
        }
        Ok(Effect {
            change: Some(Change::Accept(Accepted {
                term: publication.term,
                version: publication.version,
                value: publication.value,
                configuration: publication.configuration,
                committed_configuration: publication.committed_configuration,
            })),
            volatile: self.state.volatile,
            message: Some(Message::Response(Response {
                source: self.number,
                destination: publication.source,
                term: publication.term,
                version: publication.version,
            })),
        })
    }

    // A response: its source is counted, and the node commits once the votes decide.
    fn count_response(&self, response: &Response) -> Result<Effect, Refusal>
        ensures { result ≡ decided (response_tests (meant R.quorum self.now.setup.now) self.now.state.now response.now) (response_effect (meant R.quorum self.now.setup.now) self.now.state.now self.now.number response.now) }
    {
        let volatile = &self.state.volatile;
        if !volatile.election_won {
            return Err(Refusal::ElectionNotWon);
        }
        if response.term != self.state.kept.current_term {
            return Err(Refusal::OtherTerm);
        }
        if response.version != volatile.last_published_version {
            return Err(Refusal::OtherVersion);
        }
        let publish_votes = volatile.publish_votes.with(response.source);
        let message = self.decides(publish_votes).then_some(Message::Commit(Commit {
            source: self.number,
            term: response.term,
            version: response.version,
        }));
        Ok(Effect {
            change: None,
            volatile: Volatile {
                publish_votes,
                ..*volatile
            },
            message,
        })
    }

    // Whether the votes decide the publication: in the committed and in the published
    // configuration. Like `elects` but for one configuration: each has a definition of its own.
    fn decides(&self, publish_votes: NodeSet) -> bool
        ensures { result ≡ decides (meant R.quorum self.now.setup.now) self.now.state.now publish_votes }
    {
        let committed = self.state.kept.last_committed_configuration;
        let published = self.state.volatile.last_published_configuration;
        self.setup.rule.is_quorum(publish_votes, committed)
            && self.setup.rule.is_quorum(publish_votes, published)
    }

    // A commit: the accepted configuration is marked as committed.
    fn commit(&self, commit: &Commit) -> Result<Effect, Refusal>
        ensures { result ≡ decided (commit_tests (meant R.quorum self.now.setup.now) self.now.state.now commit.now) (commit_effect (meant R.quorum self.now.setup.now) self.now.state.now) }
    {
        let kept = &self.state.kept;
        let volatile = &self.state.volatile;
        if commit.term != kept.current_term {
            return Err(Refusal::OtherTerm);
        }
        if commit.term != kept.last_accepted_term {
            return Err(Refusal::OtherAcceptedTerm);
        }
        if commit.version != kept.last_accepted_version {
            return Err(Refusal::OtherAcceptedVersion);
        }
        if volatile.election_won && kept.last_accepted_version != volatile.last_published_version {
            return Err(Refusal::NewerPublished);
        }
        Ok(Effect {
            change: Some(Change::Mark),
            volatile: *volatile,
            message: None,
        })
    }
}

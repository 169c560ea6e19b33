//! What a node is after a restart.
ghost use Rattle.std.specs.Prelude.{◌≡◌};
ghost use Rattle.protocol.specs.Decisions.{restarted, restart_effect};
ghost use Rattle.node.specs.Setups.{meant};

use crate::member::Member;
use protocol::{Effect, Record, Volatile};
use quorum::VotingRule;

/// The volatile values after a restart, from the record that is kept.
pub fn restarted(kept: &Record) -> Volatile
    ensures { result ≡ restarted kept.now }
{
    Volatile {
        last_published_configuration: kept.last_accepted_configuration,
        ..Volatile::default()
    }
}

impl<R: VotingRule> Member<'_, R> {
    /// A restart: the volatile values are lost.
    pub fn restart(&self) -> Effect
        ensures { result ≡ restart_effect (meant R.quorum self.now.setup.now) self.now.state.now }
    {
        Effect {
            change: None,
            volatile: restarted(&self.state.kept),
            message: None,
        }
    }
}

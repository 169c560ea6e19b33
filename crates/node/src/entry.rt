//! What a node decides when an entry of a log is delivered to it.
ghost use Rattle.std.specs.Prelude.{◌≡◌, Ok};
ghost use Rattle.message_log.specs.Log.{message_at};
ghost use Rattle.node.specs.Deliveries.{on_entry};
ghost use Rattle.node.specs.Setups.{meant};

use crate::member::Member;
use message_log::{Entry, look_up};
use protocol::{Effect, Message, Refusal};
use quorum::VotingRule;

impl<R: VotingRule> Member<'_, R> {
    /// What the node, in a cluster of `nodes` nodes, does with an entry of a log.
    pub fn deliver_entry(&self, nodes: u8, log: &[u8], entry: u16) -> Result<Effect, Refusal>
        ensures { result ≡ on_entry (meant R.quorum self.now.setup.now) self.now.state.now self.now.number (message_at nodes log.now entry) }
    {
        let Some(stored) = look_up(log, entry)? else {
            return Err(Refusal::NoSuchEntry);
        };
        let message = Entry::read(stored.kind, stored.body, nodes)?.message();
        self.deliver_if_addressed(&message)
    }

    // What the node does with a message, if it is for it.
    fn deliver_if_addressed(&self, message: &Message) -> Result<Effect, Refusal>
        ensures { result ≡ on_entry (meant R.quorum self.now.setup.now) self.now.state.now self.now.number (Ok message.now) }
    {
        if !message.is_for(self.number) {
            return Err(Refusal::OtherDestination);
        }
        self.deliver(message)
    }
}

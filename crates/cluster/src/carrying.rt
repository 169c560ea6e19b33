//! Carrying out what a node has decided.
ghost use Rattle.std.specs.Prelude.{◌≡◌, None};
ghost use Rattle.cluster.specs.Calls.{told, place_for, log_with, AllFit};
ghost use Rattle.cluster.specs.Carrying.{Carried};
ghost use Rattle.cluster.specs.Clusters.{alone, with_log};

use crate::nodes::Nodes;
use message_log::{append, place};
use protocol::{Effect, Message, Refusal};
use store::{Bank, Power};

/// What a call answers: the entry that it sent or found, or none; or why it was refused.
pub type Answer = Result<Option<u16>, Refusal>;

impl<B: Bank> Nodes<B> {
    // `node`, `effect` and `power` stand in three functions: a struct of them would be built in one
    // line and taken apart in the next.

    // Carries out an effect that sends nothing.
    pub(crate) fn settle_only(&mut self, node: u8, effect: &Effect, power: Power) -> Answer
        requires { effect.now.message ≡ None }
        ensures { Carried (alone B.meaning self.old) node effect.now power result (alone B.meaning self.new) }
    {
        self.settle(node, effect, power)?;
        Ok(None)
    }

    // Carries out an effect: its message has to have a place, then its write has to finish, and
    // then the message is sent.
    pub(crate) fn carry_out(
        &mut self,
        node: u8,
        effect: &Effect,
        power: Power,
        log: &mut [u8],
    ) -> Answer
        ensures { Carried (with_log B.meaning self.old log.old) node effect.now power result (with_log B.meaning self.new log.new) }
    {
        let entry = find_place(log, &effect.message)?;
        self.settle(node, effect, power)?;
        send(log, &effect.message);
        Ok(entry)
    }
}

// The entry that a message has or will have, if there is one to send.
fn find_place(log: &[u8], message: &Option<Message>) -> Answer
    ensures answer { result ≡ told (place_for log.now message.now) }
    ensures fits { AllFit message.now }
{
    match message {
        Some(message) => Ok(Some(place(log, message)?)),
        None => Ok(None),
    }
}

// Adds a message to the log, if there is one to send.
#[tactic(auto, unfolding(message_log::specs::Log::appended))]
fn send(log: &mut [u8], message: &Option<Message>)
    ensures { log.new ≡ log_with log.old message.now }
{
    if let Some(message) = message {
        let _ = append(log, message);
    }
}

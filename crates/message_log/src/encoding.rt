//! A message as bytes.
ghost use Rattle.std.specs.Prelude.{◌≡◌};
ghost use Rattle.message_log.specs.Rules.{fields_of, body_of, Fits, ReadsBack};

use crate::fields::Fields;
use protocol::{EVERYONE, Message};

/// The 26 bytes of a message.
// By name, beside the conversions that it is made of: it says what comes back from the bytes, too.
#[tactic(auto, using(crate::proofs::RoundTrip::reads_back))]
pub fn encode(message: &Message) -> [u8; 26]
    ensures bytes { result ≡ body_of message.now }
    ensures one_to_one { ReadsBack message.now result }
    ensures fits { Fits message.now }
{
    Fields::from(message).into()
}

/// The fields of a message, those that its kind does not use at zero.
impl From<&Message> for Fields {
    ghost from_gives = { λ message fields. fields ≡ fields_of message.now };

    fn from(message: &Message) -> Fields {
        match *message {
            Message::Join(join) => Fields {
                source: join.source,
                destination: join.destination,
                term: join.term,
                base_term: join.base_term,
                base_version: join.base_version,
                ..Fields::default()
            },
            Message::Publication(publication) => Fields {
                source: publication.source,
                destination: EVERYONE,
                term: publication.term,
                version: publication.version,
                base_term: publication.base_term,
                base_version: publication.base_version,
                value: publication.value,
                configuration: publication.configuration,
                committed_configuration: publication.committed_configuration,
            },
            Message::Response(response) => Fields {
                source: response.source,
                destination: response.destination,
                term: response.term,
                version: response.version,
                ..Fields::default()
            },
            Message::Commit(commit) => Fields {
                source: commit.source,
                destination: EVERYONE,
                term: commit.term,
                version: commit.version,
                ..Fields::default()
            },
        }
    }
}

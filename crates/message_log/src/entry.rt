//! An entry of a log, as read.
ghost use Rattle.std.specs.Prelude.{◌≡◌, IfOk};
ghost use Rattle.message_log.specs.Body.{fields_in};
ghost use Rattle.message_log.specs.Rules.{read_message, read_body, WritesBack};
ghost use Rattle.message_log.specs.Entries.{entry_kind, entry_body, entry_message, Answered};

use crate::fault::Fault;
use crate::fields::Fields;
use protocol::{Commit, Join, Kind, Message, Publication, Response};

/// A valid entry, which still points at its own 26 bytes of the log.
#[derive(Clone, Copy)]
pub enum Entry<'a> {
    Join(&'a [u8; 26]),
    Publication(&'a [u8; 26]),
    Response(&'a [u8; 26]),
    Commit(&'a [u8; 26]),
}

impl<'a> Entry<'a> {
    /// The entry with this kind and this body, in a cluster of `nodes` nodes; or what is wrong
    /// with it.
    // The kind is a byte as it lies in a log: to read it is what this is for.
    #[tactic(auto, using(crate::proofs::RoundTrip::writes_back))]
    pub fn read(kind: u8, body: &'a [u8], nodes: u8) -> Result<Entry<'a>, Fault>
        ensures answer { Answered (read_message nodes kind body.now) body.now result }
        ensures one_to_one { IfOk result (λ entry. WritesBack nodes kind body.now (entry_message entry)) }
    {
        let kind = Kind::try_from(kind)?;
        Entry::of_kind(kind, body, nodes)
    }

    // The entry with this kind and body, if the body keeps the rules.
    #[tactic(auto, unfolding(crate::specs::Rules::read_body))]
    fn of_kind(kind: Kind, body: &'a [u8], nodes: u8) -> Result<Entry<'a>, Fault>
        ensures { Answered (read_body nodes kind body.now) body.now result }
    {
        let Ok(body) = <&[u8; 26]>::try_from(body) else {
            return Err(Fault::InvalidBody);
        };
        if Fields::from(body).are_valid(kind, nodes) {
            Ok(Entry::new(kind, body))
        } else {
            Err(Fault::InvalidBody)
        }
    }

    // The entry with this kind and body.
    fn new(kind: Kind, body: &'a [u8; 26]) -> Entry<'a>
        ensures kind { entry_kind result ≡ kind }
        ensures body { entry_body result ≡ body.now }
    {
        match kind {
            Kind::Join => Entry::Join(body),
            Kind::Publication => Entry::Publication(body),
            Kind::Response => Entry::Response(body),
            Kind::Commit => Entry::Commit(body),
        }
    }

    /// The entry's kind.
    // The cases are public, for callers to match on; so this is a match of its own beside that of
    // `Message::kind`.
    pub fn kind(&self) -> Kind
        ensures { result ≡ entry_kind self.now }
    {
        match self {
            Entry::Join(_) => Kind::Join,
            Entry::Publication(_) => Kind::Publication,
            Entry::Response(_) => Kind::Response,
            Entry::Commit(_) => Kind::Commit,
        }
    }

    /// The entry's own bytes.
    pub fn body(&self) -> &'a [u8; 26]
        ensures { result.now ≡ entry_body self.now }
    {
        match self {
            Entry::Join(body)
            | Entry::Publication(body)
            | Entry::Response(body)
            | Entry::Commit(body) => body,
        }
    }

    /// The numbers in the entry's body.
    pub fn fields(&self) -> Fields
        ensures { result ≡ fields_in (entry_body self.now) }
    {
        Fields::from(self.body())
    }

    /// The message that the entry is.
    // No `From`: an entry is asked for its kind, its fields and its message alike.
    pub fn message(&self) -> Message
        ensures { result ≡ entry_message self.now }
    {
        let fields = self.fields();
        match self.kind() {
            Kind::Join => Message::Join(Join {
                source: fields.source,
                destination: fields.destination,
                term: fields.term,
                base_term: fields.base_term,
                base_version: fields.base_version,
            }),
            Kind::Publication => Message::Publication(Publication {
                source: fields.source,
                term: fields.term,
                version: fields.version,
                base_term: fields.base_term,
                base_version: fields.base_version,
                value: fields.value,
                configuration: fields.configuration,
                committed_configuration: fields.committed_configuration,
            }),
            Kind::Response => Message::Response(Response {
                source: fields.source,
                destination: fields.destination,
                term: fields.term,
                version: fields.version,
            }),
            Kind::Commit => Message::Commit(Commit {
                source: fields.source,
                term: fields.term,
                version: fields.version,
            }),
        }
    }
}

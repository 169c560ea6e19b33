//! The four messages.
ghost use Rattle.std.specs.Prelude.{◌≡◌};
ghost use Rattle.protocol.specs.Messages.{kind_of, is_for};

use crate::kind::Kind;
use quorum::NodeSet;
use std::fmt;

/// Terms, versions and values are plain numbers of 32 bits.
pub type Term = u32;

pub type Version = u32;

pub type Value = u32;

/// The destination of a message that is for every node: a number, since it is a byte of a log.
pub const EVERYONE: u8 = 255;

/// `source` votes for `destination` in `term`. The base is what `source` has accepted last.
#[derive(Clone, Copy, PartialEq, Eq, Debug)]
pub struct Join {
    pub source: u8,
    pub destination: u8,
    pub term: Term,
    pub base_term: Term,
    pub base_version: Version,
}

/// `source`, the leader of `term`, proposes a value and a configuration to every node. The base
/// is what it had accepted last, and `committed_configuration` the last one that it knows decided.
#[derive(Clone, Copy, PartialEq, Eq, Debug)]
pub struct Publication<V = Value> {
    pub source: u8,
    pub term: Term,
    pub version: Version,
    pub base_term: Term,
    pub base_version: Version,
    pub value: V,
    pub configuration: NodeSet,
    pub committed_configuration: NodeSet,
}

/// `source` tells `destination` that it has accepted its publication of this term and version.
#[derive(Clone, Copy, PartialEq, Eq, Debug)]
pub struct Response {
    pub source: u8,
    pub destination: u8,
    pub term: Term,
    pub version: Version,
}

/// `source` tells every node that its publication of this term and version is decided.
#[derive(Clone, Copy, PartialEq, Eq, Debug)]
pub struct Commit {
    pub source: u8,
    pub term: Term,
    pub version: Version,
}

/// A message between nodes.
#[derive(Clone, Copy, PartialEq, Eq, Debug)]
pub enum Message<V = Value> {
    Join(Join),
    Publication(Publication<V>),
    Response(Response),
    Commit(Commit),
}

impl<V> Message<V> {
    /// The message's kind.
    pub fn kind(&self) -> Kind
        ensures { result ≡ kind_of self.now }
    {
        match self {
            Message::Join(_) => Kind::Join,
            Message::Publication(_) => Kind::Publication,
            Message::Response(_) => Kind::Response,
            Message::Commit(_) => Kind::Commit,
        }
    }

    /// Whether the message is for this node: a publication and a commit are for every node.
    pub fn is_for(&self, node: u8) -> bool
        ensures { result ≡ is_for node self.now }
    {
        match self {
            Message::Join(m) => m.destination == node,
            Message::Response(m) => m.destination == node,
            Message::Publication(_) | Message::Commit(_) => true,
        }
    }
}

/// A message in a line of words: what it is, from whom, to whom, and its numbers.
impl<V: fmt::Display> fmt::Display for Message<V> {
    fn fmt<W: fmt::Write>(&self, f: &mut fmt::Formatter<W>) -> fmt::Result {
        match self {
            Message::Join(m) => write!(
                f,
                "join {} to {} term {} accepted {}/{}",
                m.source, m.destination, m.term, m.base_term, m.base_version
            ),
            Message::Publication(m) => write!(
                f,
                "publication {} term {} version {} base {}/{} value {} configuration {} committed {}",
                m.source,
                m.term,
                m.version,
                m.base_term,
                m.base_version,
                m.value,
                m.configuration,
                m.committed_configuration
            ),
            Message::Response(m) => write!(
                f,
                "response {} to {} term {} version {}",
                m.source, m.destination, m.term, m.version
            ),
            Message::Commit(m) => write!(
                f,
                "commit {} term {} version {}",
                m.source, m.term, m.version
            ),
        }
    }
}

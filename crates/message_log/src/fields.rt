//! The nine numbers of a body.
ghost use Rattle.std.specs.Prelude.{◌≡◌};
ghost use Rattle.message_log.specs.Body.{fields_in, body_with};
ghost use Rattle.message_log.specs.Rules.{valid, no_base, no_content};

use crate::layout::{
    BASE_TERM, BASE_VERSION, BODY_LENGTH, COMMITTED_CONFIGURATION, CONFIGURATION, DESTINATION,
    SOURCE, TERM, VALUE, VERSION,
};
use crate::places::{bytes_at, put};
use protocol::{EVERYONE, Kind, Term, Value, Version};
use quorum::NodeSet;

/// What a body says, whatever its kind. A kind leaves the fields that it does not use at zero.
#[derive(Clone, Copy, PartialEq, Eq, Default, Debug)]
pub struct Fields {
    pub source: u8,
    pub destination: u8,
    pub term: Term,
    pub version: Version,
    pub base_term: Term,
    pub base_version: Version,
    pub value: Value,
    pub configuration: NodeSet,
    pub committed_configuration: NodeSet,
}

/// The numbers in a body.
impl From<&[u8; 26]> for Fields {
    ghost from_gives = { λ body fields. fields ≡ fields_in body.now };

    fn from(body: &[u8; 26]) -> Fields {
        Fields {
            source: body[SOURCE],
            destination: body[DESTINATION],
            term: u32::from_be_bytes(bytes_at(body, TERM)),
            version: u32::from_be_bytes(bytes_at(body, VERSION)),
            base_term: u32::from_be_bytes(bytes_at(body, BASE_TERM)),
            base_version: u32::from_be_bytes(bytes_at(body, BASE_VERSION)),
            value: u32::from_be_bytes(bytes_at(body, VALUE)),
            configuration: NodeSet::from_bits(u16::from_be_bytes(bytes_at(body, CONFIGURATION))),
            committed_configuration: NodeSet::from_bits(u16::from_be_bytes(bytes_at(
                body,
                COMMITTED_CONFIGURATION,
            ))),
        }
    }
}

/// The body with these numbers.
impl From<Fields> for [u8; 26] {
    ghost from_gives = { λ fields body. (body ≡ body_with fields) × (fields_in body ≡ fields) };

    fn from(fields: Fields) -> [u8; 26] {
        let mut body = [0; BODY_LENGTH];
        body[SOURCE] = fields.source;
        body[DESTINATION] = fields.destination;
        put(&mut body, TERM, &fields.term.to_be_bytes());
        put(&mut body, VERSION, &fields.version.to_be_bytes());
        put(&mut body, BASE_TERM, &fields.base_term.to_be_bytes());
        put(&mut body, BASE_VERSION, &fields.base_version.to_be_bytes());
        put(&mut body, VALUE, &fields.value.to_be_bytes());
        put(
            &mut body,
            CONFIGURATION,
            &fields.configuration.bits().to_be_bytes(),
        );
        put(
            &mut body,
            COMMITTED_CONFIGURATION,
            &fields.committed_configuration.bits().to_be_bytes(),
        );
        body
    }
}

impl Fields {
    /// Whether each field keeps the rule that a body of this kind has for it, in a cluster of
    /// `nodes` nodes.
    pub(crate) fn are_valid(&self, kind: Kind, nodes: u8) -> bool
        ensures { result ≡ valid nodes kind self.now }
    {
        self.source < nodes
            && match kind {
                Kind::Join => self.destination < nodes
                    && self.version == 0
                    && self.has_no_content(),
                Kind::Publication => {
                    self.destination == EVERYONE
                        && self.configuration.is_configuration(nodes)
                        && self.committed_configuration.is_configuration(nodes)
                }
                Kind::Response => self.destination < nodes
                    && self.has_no_base()
                    && self.has_no_content(),
                Kind::Commit => self.destination == EVERYONE
                    && self.has_no_base()
                    && self.has_no_content(),
            }
    }

    // The base is left out.
    fn has_no_base(&self) -> bool
        ensures { result ≡ no_base self.now }
    {
        self.base_term == 0 && self.base_version == 0
    }

    // The value and the configurations are left out.
    fn has_no_content(&self) -> bool
        ensures { result ≡ no_content self.now }
    {
        self.value == 0
            && self.configuration.bits() == 0
            && self.committed_configuration.bits() == 0
    }
}

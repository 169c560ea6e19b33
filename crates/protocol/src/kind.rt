//! The four kinds of message and their numbers.
ghost use Rattle.std.specs.Prelude.{◌≡◌, ◌++◌, Some, codes, decimal};
ghost use Rattle.protocol.specs.Kinds.{kind_number, kind_with_number};

use std::error::Error;
use std::fmt;

/// What a message is for, with the number that stands for it in a log.
#[derive(Clone, Copy, PartialEq, Eq, Debug)]
pub enum Kind {
    /// A node votes for another as leader of a term.
    Join = 1,
    /// A leader proposes a value and a configuration.
    Publication = 2,
    /// A node has accepted a publication.
    Response = 3,
    /// A leader has enough responses: the publication is decided.
    Commit = 4,
}

/// A number that stands for no kind.
#[derive(Clone, Copy, PartialEq, Eq, Debug)]
pub struct UnknownKind {
    pub number: u8,
}

/// The number that stands for a kind.
impl From<Kind> for u8 {
    ghost from_gives = { λ kind number. number ≡ kind_number kind };

    fn from(kind: Kind) -> u8 {
        kind as u8
    }
}

/// The kind that a number stands for, if any.
impl TryFrom<u8> for Kind {
    type Error = UnknownKind;

    ghost try_from_gives = { λ number answer. answer ≡ kind_with_number number };

    fn try_from(number: u8) -> Result<Kind, UnknownKind> {
        match number {
            1 => Ok(Kind::Join),
            2 => Ok(Kind::Publication),
            3 => Ok(Kind::Response),
            4 => Ok(Kind::Commit),
            _ => Err(UnknownKind { number }),
        }
    }
}

impl fmt::Display for UnknownKind {
    ghost output = { λ unknown. Some (decimal unknown.number ++ codes " is the number of no kind of message") };

    fn fmt<W: fmt::Write>(&self, f: &mut fmt::Formatter<W>) -> fmt::Result {
        let number = self.number;
        write!(f, "{number} is the number of no kind of message")
    }
}

impl Error for UnknownKind {}

//! What can be wrong with a log, or with an entry of it.
ghost use Rattle.std.specs.Prelude.{◌≡◌, Some, decimal};
ghost use Rattle.protocol.specs.Refusals.{refusal_number};
ghost use Rattle.message_log.specs.Faults.{refusal_of};

use protocol::{Refusal, UnknownKind};
use std::error::Error;
use std::fmt;

#[derive(Clone, Copy, PartialEq, Eq, Debug)]
pub enum Fault {
    /// The bytes are no log.
    IllFormedLog,
    /// An entry's kind is not one of the four.
    UnknownKind,
    /// A field of an entry's body is against its rule.
    InvalidBody,
    /// There is no room for a new entry.
    LogFull,
}

/// A fault passes up through `?` as the refusal that it is.
impl From<Fault> for Refusal {
    ghost from_gives = { λ fault r. r ≡ refusal_of fault };

    fn from(fault: Fault) -> Refusal {
        match fault {
            Fault::IllFormedLog => Refusal::IllFormedLog,
            Fault::UnknownKind => Refusal::UnknownKind,
            Fault::InvalidBody => Refusal::InvalidBody,
            Fault::LogFull => Refusal::LogFull,
        }
    }
}

/// A number that stands for no kind is a fault of the entry that has it.
impl From<UnknownKind> for Fault {
    ghost use Rattle.message_log.specs.declared.fault.Fault.TheVariants.{UnknownKind};

    ghost from_gives = { λ _ fault. fault ≡ UnknownKind };

    fn from(_: UnknownKind) -> Self {
        Self::UnknownKind
    }
}

/// A fault is shown as the refusal that it is, by its number.
impl fmt::Display for Fault {
    ghost output = { λ fault. Some (decimal (refusal_number (refusal_of fault))) };

    fn fmt<W: fmt::Write>(&self, f: &mut fmt::Formatter<W>) -> fmt::Result {
        let refusal = Refusal::from(*self);
        write!(f, "{refusal}")
    }
}

impl Error for Fault {}

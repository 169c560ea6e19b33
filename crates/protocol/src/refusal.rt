//! Why a call is refused.
ghost use Rattle.std.specs.Prelude.{◌≡◌, Some, decimal};
ghost use Rattle.protocol.specs.Refusals.{refusal_number};

use std::error::Error;
use std::fmt;

/// The reasons, each with the number by which it is known.
#[derive(Clone, Copy, PartialEq, Eq, Debug)]
pub enum Refusal {
    UnknownNode = 1,
    IllFormedLog = 2,
    NoSuchEntry = 3,
    UnknownKind = 4,
    InvalidBody = 5,
    OtherDestination = 6,
    IllegalConfiguration = 7,
    UnsoundStore = 8,
    TooManyStores = 9,
    IllegalInitialConfiguration = 10,
    StoreNotFresh = 11,
    ClusterShut = 20,
    AlreadyBootstrapped = 21,
    TermNotHigher = 22,
    OtherTerm = 23,
    JoinNotStarted = 24,
    JoinerAhead = 25,
    NotBootstrapped = 26,
    ElectionNotWon = 27,
    PublicationUnderWay = 28,
    VersionNotHigher = 29,
    ReconfigurationUnderWay = 30,
    NoJoinQuorum = 31,
    AlreadyAccepted = 32,
    OtherVersion = 33,
    OtherAcceptedTerm = 34,
    OtherAcceptedVersion = 35,
    NewerPublished = 36,
    LogFull = 37,
    WriteUnfinished = 38,
}

/// The number by which a refusal is known.
impl From<Refusal> for u8 {
    ghost from_gives = { λ refusal number. number ≡ refusal_number refusal };

    fn from(refusal: Refusal) -> u8 {
        refusal as u8
    }
}

/// A refusal is shown by its number.
impl fmt::Display for Refusal {
    ghost output = { λ refusal. Some (decimal (refusal_number refusal)) };

    fn fmt<W: fmt::Write>(&self, f: &mut fmt::Formatter<W>) -> fmt::Result {
        let number = u8::from(*self);
        write!(f, "{number}")
    }
}

impl Error for Refusal {}

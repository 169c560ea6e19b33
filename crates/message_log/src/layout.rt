//! Where everything lies. A log is four bytes of sizes, a kind byte for each entry that it has room
//! for, and a body for each. All numbers have the high byte first.
ghost use Rattle.std.specs.Prelude.{◌≡◌, ℕ, ◌+◌, ◌*◌};
ghost use Rattle.message_log.specs.Layout.{kind_place, body_place};

/// The capacity and the count, two bytes each.
pub const SIZES_LENGTH: usize = 4;

/// Where the capacity begins.
pub const CAPACITY: usize = 0;

/// Where the count begins.
pub const COUNT: usize = 2;

/// A log has room for 1 to this many entries.
pub const MAX_CAPACITY: u16 = 2048;

/// The length of a body.
pub const BODY_LENGTH: usize = 26;

/// Where each number of a body begins.
pub const SOURCE: usize = 0;

pub const DESTINATION: usize = 1;

pub const TERM: usize = 2;

pub const VERSION: usize = 6;

pub const BASE_TERM: usize = 10;

pub const BASE_VERSION: usize = 14;

pub const VALUE: usize = 18;

pub const CONFIGURATION: usize = 22;

pub const COMMITTED_CONFIGURATION: usize = 24;

// Where the kind of an entry lies.
pub(crate) fn kind_place(entry: u16) -> usize
    ensures { result ≡ kind_place entry }
{
    SIZES_LENGTH + usize::from(entry)
}

// Where the body of an entry begins in a log with this capacity.
pub(crate) fn body_place(capacity: u16, entry: u16) -> usize
    ensures { result ≡ body_place capacity entry }
{
    SIZES_LENGTH + usize::from(capacity) + BODY_LENGTH * usize::from(entry)
}
